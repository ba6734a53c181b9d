//! Laws of the bytes that a loader leaves of an image's parts and of its blocks. No code runs here.
//!
//! A loader writes words into an image at the addresses of its relocations (`loaded_modules`): one list of bytes over
//! another, relocation by relocation. To know what an instruction reads at an address, one needs that byte, and not
//! this history. Relocations that a linker makes lie one after another, each whole in one part, so no word is written
//! over another's. This crate says what follows.
//!
//! The rule of the crate: **a byte of an instance is a digit of the word that a relocation writes there, or else the
//! part's own**. It holds for code, constants, the initial image of thread-local storage, data and tables alike
//! ([`parts_are_left`], [`loaded_parts_are_left`], [`loaded_bytes_are_covered`]), and for the block that each thread
//! begins with, which is copied from the initial image as the instance has it, and not as the file has it
//! ([`blocks_are_left`]).
//!
//! For example, an initial image at 0x3000 holds 8 bytes, and a RELATIVE relocation with the addend 0x1010 names its
//! first. Instance 5 has the load bias 0x1_1400_0000:
//!
//! ```text
//! in the file                       00 00 00 00 00 00 00 00
//! at 0x1_1400_3000                  10 10 00 14 01 00 00 00
//! at the start of each block        10 10 00 14 01 00 00 00
//! ```
//!
//! `specs/Left` has the words, a line for each type of relocation, and `specs/Laws` what is proved of them.
#![tactic(auto)]

mod laws;

pub use laws::{blocks_are_left, loaded_bytes_are_covered, loaded_parts_are_left, parts_are_left};
