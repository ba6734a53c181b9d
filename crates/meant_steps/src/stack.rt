//! A thread's stack, as a sequence needs it.

ghost use Rattle.std.specs.Prelude.{◌≡◌, ℕ, ◌≤◌, length};
ghost use Rattle.guest_operands.specs.declared.space.Access.TheVariants.{Write};
ghost use Rattle.guest_operands.specs.Ranges.{grants};
ghost use Rattle.thread_blocks.specs.Spaces.{stack_range};
ghost use Rattle.whole_meaning.specs.Threads.{Memory, hidden_below};
ghost use Rattle.meant_steps.specs.Stacks.{IsForgettable, stack_from};

use job_meaning::Byte;

/// A thread's memory. A sequence accesses only its stack.
pub trait CallStack {
    /// What a sequence keeps besides the memory and the start of its stack; `()` if there is nothing.
    type Rest;

    ghost memory: { Self → Memory };

    /// The address of the stack's lowest byte.
    ghost start: { Self → ℕ };

    ghost rest: { Self → Self.Rest };

    /// Whether the byte at an address lies on the stack.
    fn holds(&self, place: u64) -> bool
        ensures { result ≡ (stack_from (start self.now)).holds (memory self.now) place };

    /// Makes the stack's bytes below an address unknown.
    fn forget(&mut self, place: u64)
        requires { IsForgettable (start self.old) (memory self.old) place }
        ensures memory { memory self.new ≡ (stack_from (start self.old)).forget (memory self.old) place }
        ensures start { start self.new ≡ start self.old }
        ensures rest { rest self.new ≡ rest self.old };
}

/// Whether the byte at an address lies on a stack whose lowest byte is at `start`: `CallStack::holds` over bytes.
pub fn is_in_stack(start: u64, stack: &[Byte], place: u64) -> bool
    ensures { result ≡ grants Write (stack_range start stack.now) place }
{
    start <= place && place - start < stack.len() as u64
}

/// Makes the lowest `count` bytes of a stack unknown: `CallStack::forget` over bytes.
pub fn hide(stack: &mut [Byte], count: usize)
    requires { count ≤ length stack.old }
    ensures { stack.new ≡ hidden_below count stack.old }
{
    stack[..count].fill(Byte::Hidden);
}
