//! Laws of a thread's memory at the addresses of live instances. No code runs here.
//!
//! A thread of the machine reads one list of ranges, and takes the first that holds the address (`thread_blocks`):
//!
//! ```text
//! its stack                       from the thread's own stack start on
//! what it writes                  its blocks, and data that threads share
//! the word at its thread pointer  eight bytes that hold the thread pointer itself
//! what is fixed                   of each live instance its code, its constants, its tables
//! ```
//!
//! `HasInstruction` and `HasWord` of `tied_meaning` say that an instance has an instruction or a word at an address,
//! without any thread. The rule of the crate: **a thread reads what a live instance has at an address**, whatever else
//! the thread holds ([`laws::instructions_are_fetched`], [`laws::words_are_loaded`]), and at its thread pointer it
//! reads the thread pointer ([`laws::pointers_are_loaded`]).
//!
//! The reason is that no earlier range holds the address. An address of an instance is below 2^39 and has the
//! instance's number in it. Stacks, blocks and thread pointers are above 2^40. Code and data of another instance have
//! another number in their addresses, and the instance's own data are apart from all that is fixed of it. Only blocks
//! come close to the thread pointer: each ends there or below.
//!
//! A thread need only have its written ranges in place (`AreInPlace` in `specs/Places.antt`): each of them has the
//! address and size that some instance of the history gives it. The bytes in them don't matter.
//!
//! Proofs go from a list of ranges (`proofs/Ranges.antt`) to a thread's ranges (`proofs/Found.antt`,
//! `proofs/Pointer.antt`), and from bytes to words and instructions of any memory (`proofs/Bytes.antt`);
//! `proofs/Standing.antt` joins both.
#![tactic(auto)]

pub mod laws;
