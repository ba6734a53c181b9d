//! The instances that a history leaves, where their blocks are, and how a thread sees them.

ghost use Rattle.std.specs.Prelude.{◌≡◌, ◌<◌, IfOk, OnOk};
ghost use Rattle.thread_blocks.specs.Instances.{instances_in, loaded_instance};
ghost use Rattle.module_table.specs.Past.{module_of};
ghost use Rattle.job_check.specs.Histories.{IsLeftBy, infos_of};
ghost use Rattle.job_check.specs.Lines.{Sees};

use loaded_modules::Instance;
use marked_memory::{MarkedMemory, OwnedRange, Wanted};
use meant_images::MeantImages;
use module_table::ModuleTable;
use std::alloc::{AllocError, Global};

/// One more than the most images of a job.
const NUMBERS: u32 = 65;

/// The live instance of an image.
pub(crate) fn live_instance(
    images: &MeantImages,
    table: &ModuleTable,
    image: u32,
) -> Option<Instance>
    ensures { result ≡ loaded_instance (infos_of images.now) image (module_of table.now image) }
{
    let module = table.module(image);
    if !module.is_loaded() {
        return None;
    }
    let offset = if module.info.late {
        module.offset
    } else {
        Some(images.static_offset(image))
    };
    Some(Instance {
        image,
        number: module.instance,
        id: module.id,
        offset,
    })
}

/// The live instances, in the order of their images.
pub(crate) fn live_instances(
    alloc: Global,
    images: &MeantImages,
    table: &ModuleTable,
) -> Result<Vec<Instance>, AllocError>
    requires { IsLeftBy images.now table.now }
    ensures { IfOk result (λ live. live.items ≡ instances_in (infos_of images.now) table.now) }
{
    let mut live = Vec::new(alloc);
    for image in 0..NUMBERS {
        if let Some(instance) = live_instance(images, table, image) {
            live.push(instance)?;
        }
    }
    Ok(live)
}

/// Makes a thread see the history as it is now, and take these data.
pub(crate) fn see(
    alloc: Global,
    space: &mut MarkedMemory,
    table: &ModuleTable,
    handed: Vec<OwnedRange>,
) -> Result<(), AllocError>
    requires { IsLeftBy space.old.images table.now }
    ensures { OnOk result (Sees handed.items space.old table.now space.new) }
{
    let live = live_instances(alloc, space.images(), table)?;
    space.hold(live, handed, Wanted::Fixed)
}
