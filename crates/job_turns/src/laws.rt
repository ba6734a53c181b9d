//! Laws of runners. Each function does nothing; its contract is the law.

ghost use Rattle.std.specs.Prelude.{◌≡◌, false, []};
ghost use Rattle.loaded_modules.specs.declared.instance.Instance.{Instance};
ghost use Rattle.loaded_modules.specs.Images.{JobImages};
ghost use Rattle.module_data.specs.Parts.{fresh_data};
ghost use Rattle.thread_blocks.specs.JobLoads.{job_loads};
ghost use Rattle.thread_blocks.specs.JobStatements.{HasNoData};
ghost use Rattle.job_turns.specs.Alone.{has_data};

use crate::runner::Runner;

/// If no image has data that programs write, no instance has any: the threads of the definitions share nothing
/// (`thread_blocks::laws` says what follows for their turns).
#[tactic(auto, using(crate::proofs::Dataless::no_data, crate::proofs::Dataless::no_fresh))]
pub fn instances_have_no_data()
    ensures shared { (m : JobImages) → has_data m ≡ false → HasNoData (job_loads m) }
    ensures bytes { (m : JobImages) (x : Instance) → has_data m ≡ false → fresh_data m x ≡ [] }
{}

/// Compiles only if threads may move and share a type's values.
fn crosses_threads<T: Send + Sync>() {}

/// Threads may move and share a runner: one thread can make it, and another take its turns.
pub fn runners_cross_threads() {
    crosses_threads::<Runner<'static, 'static, 'static>>();
}
