//! Laws of instances: each function's contract is the law.

ghost use Rattle.std.specs.Prelude.{ℕ, List};
ghost use Rattle.job_text.specs.Jobs.{JobParts};
ghost use Rattle.loaded_modules.specs.Laws.{InstancesApart, ReadLateLast};

use crate::instance::Instance;
use crate::modules::Modules;
use image_file::{Image, image_is_spelled};

/// The parts of two instances with different numbers share no address, unless both are programs at fixed addresses; a
/// job has one program, loaded once. Instances 1 to 4,095 lie below 2^39.
pub fn instances_lie_apart(first: &Image, second: &Image)
    ensures { InstancesApart first.now second.now }
{
    image_is_spelled(first);
    image_is_spelled(second);
}

/// The images of a job that was read are in image order: late ones come last, as `AreModules` requires.
#[tactic(auto, using(job_text::specs::LateImages::late_last))]
pub fn late_images_come_last()
    ensures { (text : List ℕ) (job : JobParts) → ReadLateLast text job }
{}

/// Checks that threads may move and share a type's values.
fn crosses_threads<T: Send + Sync>() {}

/// Threads may move and share the images of a job, and read any instance of them.
pub fn modules_cross_threads() {
    crosses_threads::<Modules>();
    crosses_threads::<Instance>();
}
