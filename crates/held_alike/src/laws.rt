//! Laws of what threads hold. Each function does nothing; what it ensures is the law.

ghost use Rattle.held_alike.specs.Laws.{DataAreLentAlike, LoadsKeepHeld, LooksKeepHeld, ReachesKeepHeld};

/// A look keeps related what a thread holds: both sides drop blocks and data of closed instances, and make the same
/// blocks.
pub fn looks_keep_held()
    ensures { LooksKeepHeld }
{}

/// So does reaching a block, which makes it if there was none.
pub fn reaches_keep_held()
    ensures { ReachesKeepHeld }
{}

/// So does the load of an instance, which makes its data.
pub fn loads_keep_held()
    ensures { LoadsKeepHeld }
{}

/// A related thread stays so while it holds the job's data, and without them; and the data that it leaves are related.
#[tactic(auto, using(crate::proofs::Lent::data_lent))]
pub fn data_are_lent_alike()
    ensures { DataAreLentAlike }
{}
