//! Laws of every history: each function's contract is the law, and its body is empty.

ghost use Rattle.std.specs.Prelude.{ℕ, ◌≤◌, ◌++◌, List};
ghost use Rattle.module_table.specs.declared.modules.ImageInfo.{ImageInfo};
ghost use Rattle.module_table.specs.declared.events.Event.{Event};
ghost use Rattle.module_table.specs.Past.{past};
ghost use Rattle.module_table.specs.Past.{IsLegal};
ghost use Rattle.module_table.specs.Laws.{Balances, CountsInstances, HaveOwnNumbers, LoadsTakeLeastId, EndsForGood};
ghost use Rattle.module_table.specs.Laws.{BlocksAreApart, BlocksFit, InstancesAreApart};
ghost use Rattle.module_table.specs.Modules.{startup_end};

use crate::modules::Module;
use crate::registry::Registry;
use crate::table::ModuleTable;

/// The number of uses of an image is its opens minus its closes, plus one for a startup image,
/// which so is always loaded.
#[tactic(auto, using(crate::proofs::LawsOfNumbers::balances))]
pub fn opens_and_closes_balance()
    ensures { (infos : List ImageInfo) (last_offset : ℕ) (events : List Event) (image : ℕ)
        → IsLegal infos last_offset events → Balances infos last_offset events image }
{}

/// The instances made are those of the startup images, and one for each load.
#[tactic(auto, using(crate::proofs::LawsOfNumbers::counts_instances))]
pub fn loads_are_counted()
    ensures { (infos : List ImageInfo) (last_offset : ℕ) (events : List Event)
        → CountsInstances infos last_offset events }
{}

/// No two loaded images have the same instance, or the same module id.
#[tactic(auto, using(crate::proofs::LawsOfNumbers::own_numbers))]
pub fn numbers_are_their_own()
    ensures { (infos : List ImageInfo) (last_offset : ℕ) (events : List Event) → IsLegal infos last_offset events
        → HaveOwnNumbers (past infos last_offset events) }
{}

/// An instance that was closed for the last time is never live again, so data kept under its number belong to no other.
#[tactic(auto, using(crate::proofs::LawsOfEnds::ends_for_good))]
pub fn instances_end_for_good()
    ensures { (infos : List ImageInfo) (last_offset : ℕ) (front rest : List Event) (instance : ℕ)
        → IsLegal infos last_offset (front ++ rest) → EndsForGood infos last_offset front rest instance }
{}

/// A load gives the least module id from 1 on that no live instance has.
#[tactic(auto, using(crate::proofs::LawsOfNumbers::least_ids))]
pub fn loads_take_the_least_id()
    ensures { (infos : List ImageInfo) (last_offset : ℕ) (events : List Event) → IsLegal infos last_offset events
        → LoadsTakeLeastId (past infos last_offset events) }
{}

/// No two static blocks of a history overlap, startup images' blocks included: no byte of the surplus is given twice.
pub fn static_blocks_are_apart()
    ensures { (infos : List ImageInfo) (last_offset : ℕ) (events : List Event) → startup_end infos 0 ≤ last_offset
        → BlocksAreApart infos last_offset events }
{}

/// The surplus has room for each block that it gives.
#[tactic(auto, using(crate::proofs::LawsOfBlocks::blocks_fit))]
pub fn static_blocks_fit()
    ensures { (infos : List ImageInfo) (last_offset : ℕ) (events : List Event) → IsLegal infos last_offset events
        → BlocksFit infos last_offset events }
{}

/// The static blocks of the newest instances of two images do not overlap, and each lies in the surplus, past all
/// startup blocks.
#[tactic(auto, using(crate::proofs::LawsOfBlocks::instances_apart))]
pub fn instances_have_their_own_bytes()
    ensures { (infos : List ImageInfo) (last_offset : ℕ) (events : List Event) → IsLegal infos last_offset events
        → InstancesAreApart last_offset (past infos last_offset events) }
{}

/// Checks that threads may move and share a type's values.
fn crosses_threads<T: Send + Sync>() {}

/// Threads may move and share a registry, and all that it is made of.
pub fn registries_cross_threads() {
    crosses_threads::<Registry>();
    crosses_threads::<ModuleTable>();
    crosses_threads::<Module>();
}
