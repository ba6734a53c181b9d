//! Laws of code with fields. Each function does nothing; what it ensures is the law.

ghost use Rattle.marked_code.specs.Laws.{MarkedStepsFollow, NextHasNoIndex, ReadsFollow};

/// Where no sequence begins, a clean step of the meaning is the machine's step, whatever numbers a linker wrote into
/// fields, and wherever it put the words that address fields lead to.
#[tactic(auto, using(crate::proofs::Related::steps_follow))]
pub fn marked_steps_follow()
    ensures { MarkedStepsFollow }
{}

/// An instruction that reads a word from memory does the same with an equal word at another address.
#[tactic(auto, using(crate::proofs::Related::reads_follow))]
pub fn reads_follow()
    ensures { ReadsFollow }
{}

/// An operand relative to the next instruction has no index.
#[tactic(auto, using(crate::proofs::NextIndex::next_has_no_index))]
pub fn next_has_no_index()
    ensures { NextHasNoIndex }
{}
