//! Memory for a guest machine: ranges of bytes with rights, accessed one byte at a time.
//!
//! A thread of a linked program sees a few ranges of addresses: its stack, its TLS blocks, the parts of the loaded
//! images. Each byte of a range may or may not be read, written or run. An access of several bytes takes place if each
//! of its bytes allows it: eight bytes at the end of one range and the start of the next are one load, and a store
//! that reaches one byte too far stores nothing. A fetch of code ends before the first byte that may not be run.
//!
//! The crate proves once that an access of several bytes is made of its bytes. A memory of any kind says what one byte
//! is (the trait `Bytes`: read, run, may_write, write, is_field). `load`, `store` and `fetch` are then those of the
//! machine's `Space`, with the same contracts, so an own `Space` is four lines that call them. Whatever else such a
//! memory holds (`rest`), `write` keeps it, and so does `store`.
//!
//! `GuestMemory` is such a memory in owned bytes: a list of ranges with their rights, of which the first one that
//! allows an access decides, and the addresses of offset fields. For example
//!
//!     code  at 0x400000, read and run:    64 48 8b 04 25 08 00 00 00 c3   mov %fs:8, %rax; ret
//!     stack at 0x7f0000, read and write:  00 20 00 00 00 00 00 00 e9 01 02 03 04 05 06 07
//!
//! With the thread pointer and %rsp at 0x7f0000 the machine loads the eight bytes at 0x7f0008, the
//! lowest first, and returns to 0x2000 with 0x07060504030201e9 in %rax.
#![tactic(auto)]

mod bytes;
mod memory;
mod range;

pub use bytes::{Bytes, fetch, load, store};
pub use memory::GuestMemory;
pub use range::{GuestRange, Rights};
