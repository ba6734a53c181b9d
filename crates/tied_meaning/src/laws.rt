//! The law of values. The function does nothing; what it ensures is the law.

ghost use Rattle.tied_meaning.specs.Laws.{NumbersFollowMarkedValues};

/// Plain numbers follow marked values, whatever numbers a setting gives to bases and descriptors.
#[tactic(auto, using(crate::proofs::Values::values_follow))]
pub fn numbers_follow_marked_values()
    ensures { NumbersFollowMarkedValues }
{}
