//! What a thread of a job may reach while it is checked.
//!
//! `job_check` runs a job as its objects mean it (`whole_meaning`). Its bytes are marked: some are unknown, and some
//! are tokens for what only a linker knows. The machine that runs the code (`guest_machine`) asks a memory for bytes.
//! This crate is that memory, for one thread:
//!
//! ```text
//! 0                                 a word that is lent for one step: what an address field stands for   read
//! 0x400000 ..  and from 2^32 on     code; constants and initial images, of live instances                run; read
//! ..                                data of live instances, one copy for all threads                     read, written
//! t * 2^40 ..                       thread t's blocks of live instances                                  read, written
//! t * 2^40 + 2^38                   the word at its thread pointer                                       read
//! below t * 2^40 + 2^39             its stack of 65,536 bytes                                            read, written
//! ```
//!
//! **The rule**: at each moment [`MarkedMemory`] is what the definitions' thread holds, range by range and in the same
//! order (`specs/Kept`: `memory_of`, `held_at`). So each access of the machine is the definition's access, with no
//! argument about where ranges lie. A look ([`MarkedMemory::hold`]) leaves `held_of`, as the definition says: the blocks
//! and the data of what is live now, kept or fresh. It copies no byte.
//!
//! **What never changes is not stored** for each thread: code and constants are read from the images (`meant_images`),
//! byte by byte. Of the stack only the bytes that were touched are stored. All below them are alike: zero before a
//! call, unknown after a sequence that calls (`stack`). Blocks and data take about one byte of memory for each of
//! theirs, and more only for bytes that are unknown or part of a token (`marked_bytes`).
//!
//! A job passes the data from one thread to the next: [`MarkedMemory::take_data`] gives them up, and `hold` takes them in
//! the next turn. Both move what the memory holds, so after an error it holds no block and no data.
#![tactic(auto)]

mod bytes;
mod code;
mod holding;
mod marks;
mod owned;
mod space;
mod stack;
mod words;

pub use bytes::Outline;
pub use owned::{OwnedRange, Written};
pub use space::{MarkedMemory, Wanted};
pub use words::block_start;
