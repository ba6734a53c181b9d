//! Laws of the causes of unclean steps. Each function does nothing; what it ensures is the law.

ghost use Rattle.cause_laws.specs.Laws.{CausesAreAnswered, CleanStepsAreGeneric};

/// Where no row of the table holds, a step is the machine's step over marked values, with the operand that a field
/// gives.
#[tactic(auto, using(crate::proofs::Clean::clean_steps))]
pub fn clean_steps_are_generic()
    ensures { CleanStepsAreGeneric }
{}

/// A step answers a cause exactly where that cause is the first whose row holds.
#[tactic(auto, using(crate::proofs::Causes::causes_answered))]
pub fn causes_are_answered()
    ensures { CausesAreAnswered }
{}
