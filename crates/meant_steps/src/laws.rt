//! Laws of stacks. Each function does nothing; what it ensures is the law.

ghost use Rattle.meant_steps.specs.Stacks.{StacksAgree};

/// A thread's stack in `whole_meaning` is the stack that begins at the thread's stack address. So for a memory whose
/// stack begins there, the clauses of [`crate::does`] are the step of the sequence in the meaning.
pub fn stacks_agree()
    ensures { StacksAgree }
{}
