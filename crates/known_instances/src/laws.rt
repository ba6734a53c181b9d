//! Laws of instance numbers. Each function does nothing; what it ensures is the law.

ghost use Rattle.known_instances.specs.Laws.{IdsAreOwn, KnownInstancesLived, LateIdsAreLate};
ghost use Rattle.known_instances.specs.Laws.{NumbersAreKnown, StartupInstancesStay, StaticBlocksHaveOffsets};

/// In all fronts of a legal history an instance number stands for one instance.
#[tactic(auto, using(crate::proofs::Known::numbers_known))]
pub fn numbers_are_known()
    ensures { NumbersAreKnown }
{}

/// The instance with a number was live at some time, under that number.
pub fn known_instances_lived()
    ensures { KnownInstancesLived }
{}

/// The module id of a live instance finds that instance.
#[tactic(auto, using(crate::proofs::Known::ids_own))]
pub fn ids_are_own()
    ensures { IdsAreOwn }
{}

/// A startup image's instance stays live, and its module id is its number.
pub fn startup_instances_stay()
    ensures { StartupInstancesStay }
{}

/// No late instance has the id of a startup one.
#[tactic(auto, using(crate::proofs::Live::late_late))]
pub fn late_ids_are_late()
    ensures { LateIdsAreLate }
{}

/// An instance of an image that needs its blocks at a fixed distance from the thread pointer has them there.
#[tactic(auto, using(crate::proofs::Surplus::static_offsets))]
pub fn static_blocks_have_offsets()
    ensures { StaticBlocksHaveOffsets }
{}
