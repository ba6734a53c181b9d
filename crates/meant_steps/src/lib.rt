//! One step of marked code as functions: decoding its instruction, and doing a sequence.
//!
//! `whole_meaning` defines what a job means before anything is linked. A check whether a job is clean makes the steps
//! of that definition, so it must decode marked code and do sequences. Here both are functions, each equal to its
//! definition: over registers, at most 15 bytes of code, and the marks of addresses. The only memory that they use is
//! the stack.
//!
//! **Reading** ([`hindrance`]). If the linker writes a field, the object's bytes in it say nothing. `lea
//! x@dtpoff(%rax), %rdi` is
//!
//! ```text
//! bytes   48 8d b8   00 00 00 00    c3
//! marks   u  u  u    0  1  2  3     u       u: usual; 0 to 3: bytes of the field of x
//! ```
//!
//! The walk looks for the first byte whose mark is not usual; code without fields costs it nothing else. There it asks
//! whether the bytes before it are a proper prefix of an instruction: `48 8d b8` is. Then it decodes once, with zeros
//! for the missing bytes, and asks for each marked byte up to the instruction's end whether the field may stand there
//! ([`takes_offset`], [`takes_address`]): here as the displacement from a base, if %rax holds one of the code's own
//! instance. It asks each byte before the end and none after it, since no spelling is a prefix of another.
//!
//! **Doing.** `guest_machine` does a decoded instruction in [`marked_frame`], where a field's own number stands in
//! place of its four bytes. An address field is a word that is lent: [`address_at`] is the word, and [`own_touches`]
//! leaves that operand out of the bytes that the instruction touches.
//!
//! **Sequences** ([`does`]). Each is one step. `mov x@gottpoff(%rip), %rcx` puts the distance of x from the thread
//! pointer into %rcx. `call *x@tlscall(%rax)` requires that %rax holds the descriptor of x and that there is stack for
//! a return address, and leaves the flags and the stack below %rsp unknown. A sequence that has no meaning here
//! changes nothing. If the variable's instance is not a startup one, the forms that [`asks`] names look first,
//! provided [`stops`] finds nothing wrong.
//!
//! **A caller brings** [`Marks`], the mark of each address of code, and [`CallStack`], a thread's memory with its
//! stack. For a memory that keeps the stack as bytes, [`is_in_stack`] and [`hide`] are the two methods.
//! [`laws::stacks_agree`] says that its stack is the one of `whole_meaning`'s threads.
#![tactic(auto)]

mod fields;
pub mod laws;
mod marks;
mod reading;
mod sequence;
mod stack;
#[cfg(test)]
mod tests;

pub use fields::{address_at, marked_frame, memory_in, read_in, takes_address, takes_offset};
pub use marks::Marks;
pub use reading::{hindrance, own_touches};
pub use sequence::{asks, does, stops};
pub use stack::{CallStack, hide, is_in_stack};
