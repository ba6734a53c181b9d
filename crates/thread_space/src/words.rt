//! A thread's stack, and the word at its thread pointer.

ghost use Rattle.std.specs.Prelude.{◌≡◌, ◌≤◌, [], IfOk};
ghost use Rattle.address_map.specs.Map.{stack_start};
ghost use Rattle.guest_arithmetic.specs.Plain.{plain_operations};
ghost use Rattle.thread_blocks.specs.MachineTurns.{fresh_stack, pointer_word, word_bytes, zeros};
ghost use Rattle.thread_blocks.specs.Spaces.{stack_range};

use address_map::{STACK_SIZE, stack_start, thread_pointer};
use guest_machine::RETURN;
use guest_memory::{GuestRange, Rights};
use std::alloc::{AllocError, Global};

const CONSTANT: Rights = Rights {
    readable: true,
    writable: false,
    runnable: false,
};

const VARIABLE: Rights = Rights {
    readable: true,
    writable: true,
    runnable: false,
};

/// A list of `count` zeros.
#[tactic(auto, unfolding(thread_blocks::specs::MachineTurns::zeros))]
fn zeros(alloc: Global, count: usize) -> Result<Vec<u8>, AllocError>
    ensures { IfOk result (λ bytes. bytes.items ≡ zeros 0 count) }
{
    let mut bytes = Vec::new(alloc);
    bytes.resize(count, 0)?;
    Ok(bytes)
}

/// The eight bytes of a number.
#[tactic(auto, unfolding(guest_arithmetic::specs::Plain::plain_operations))]
fn bytes_of(alloc: Global, number: u64) -> Result<Vec<u8>, AllocError>
    ensures { IfOk result (λ bytes. bytes.items ≡ word_bytes plain_operations number) }
{
    Vec::from_slice(alloc, &number.to_le_bytes())
}

/// An empty stack, at the address of a thread's stack.
pub(crate) fn no_stack(alloc: Global, thread: u32) -> GuestRange<u8>
    requires { thread ≤ 64 }
    ensures { result ≡ stack_range (stack_start thread) [] }
{
    GuestRange::new(stack_start(thread), Vec::new(alloc), VARIABLE)
}

/// The stack before a call: zeros, and the return address in its last eight bytes.
#[tactic(auto, unfolding(guest_arithmetic::specs::Plain::plain_operations))]
pub(crate) fn stack_of(alloc: Global, thread: u32) -> Result<GuestRange<u8>, AllocError>
    requires { thread ≤ 64 }
    ensures { IfOk result (λ range. range ≡ stack_range (stack_start thread) (fresh_stack plain_operations)) }
{
    let mut bytes = zeros(alloc, STACK_SIZE as usize - 8)?;
    bytes.extend_from_slice(bytes_of(alloc, RETURN)?.as_slice())?;
    let start = stack_start(thread);
    Ok(GuestRange::new(start, bytes, VARIABLE))
}

/// The eight bytes at the thread pointer, which hold the thread pointer and can only be read.
pub(crate) fn pointer_word(alloc: Global, thread: u32) -> Result<GuestRange<u8>, AllocError>
    requires { thread ≤ 64 }
    ensures { IfOk result (λ range. range ≡ pointer_word plain_operations thread) }
{
    let pointer = thread_pointer(thread);
    let bytes = bytes_of(alloc, pointer)?;
    Ok(GuestRange::new(pointer, bytes, CONSTANT))
}
