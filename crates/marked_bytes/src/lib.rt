//! Bytes of memory of which most are values.
//!
//! A byte of the meaning's memory is a value, unknown, or one byte of a token. As a [`Byte`] it takes 48 bytes of the
//! host's memory. A thread's block may have a million bytes and a job 64 threads, but programs keep tokens in registers
//! and on the stack, and hardly one comes into a block or into data. So [`MarkedBytes`] keeps values as they are, one
//! byte each, and only the other bytes as a [`Byte`].
//!
//! The rule that the crate keeps: **contracts see a list of bytes**, and no call shows how a byte is kept. A write
//! never fails. Room for every byte's mark is reserved at the start: 52 bytes of address space for each byte. It takes
//! memory once marks are there, since a system gives a page of memory when the page is first touched.
//!
//! ```text
//! values   2a 00 00 00 00 00 00 00 05      nine bytes
//! slots     0  1  2  0  0  0  0  0  0      the second and the third are marks; without any mark this list is empty
//! marks    Hidden, Part(base, 3)
//! ```
#![tactic(auto)]

mod marked_bytes;

pub use marked_bytes::MarkedBytes;
