//! Laws of the meaning. Each function does nothing; what it ensures is the law.

ghost use Rattle.whole_meaning.specs.Laws.{AnswersAgree, NumbersAreOwn, RunTimeAnswersAgree};

/// A General Dynamic sequence and the call of a descriptor find one variable at one address.
#[tactic(auto, using(crate::proofs::Answering::answers))]
pub fn answers_agree()
    ensures { AnswersAgree }
{}

/// So do the two functions of the run time that they call.
#[tactic(auto, using(crate::proofs::Answering::run_time_answers))]
pub fn run_time_answers_agree()
    ensures { RunTimeAnswersAgree }
{}

/// No two symbols have the same number.
#[tactic(auto, using(crate::proofs::Numbers::own_numbers))]
pub fn numbers_are_own()
    ensures { NumbersAreOwn }
{}
