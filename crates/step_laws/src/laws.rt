//! Laws of steps of the meaning that are no sequence's. Each function does nothing; what it ensures is the law.

ghost use Rattle.step_laws.specs.Example.{ExampleIsPlain};
ghost use Rattle.step_laws.specs.Laws.{PlainStepsAreTheMachines, StepsAreAsTold, TouchedBytesAreNeeded};

/// A step that reads numbers alone, and touches nothing of the linker's own, has no cause, and is the machine's step of
/// the same numbers.
#[tactic(auto, using(crate::proofs::PlainSteps::the_machines))]
pub fn plain_steps_are_the_machines()
    ensures { PlainStepsAreTheMachines }
{}

/// Each byte of data that a step is said to touch is needed: without it a step that has no cause is refused.
#[tactic(auto, using(crate::proofs::MeantSteps::needed))]
pub fn touched_bytes_are_needed()
    ensures { TouchedBytesAreNeeded }
{}

/// These are the steps of the meaning, and the bytes of which it asks whether they are the linker's own.
pub fn steps_are_as_told()
    ensures { StepsAreAsTold }
{}

/// There is such a step: `xor %ecx, %eax`, where nothing is known of %rbx.
#[tactic(auto, using(crate::proofs::Examples::is_plain))]
pub fn example_is_plain()
    ensures { ExampleIsPlain }
{}
