//! The job that `gen N` makes: its text, and the files of its objects.
//!
//! To see a linker at work one needs objects. This crate makes as many as are asked for, all of the same size, so that
//! the work of a run grows with N alone. For N = 3 the job is this text:
//!
//! ```text
//! image app exe g1.o g2.o g3.o        a program of three objects
//! image plug late p.o                 a module that is loaded while the program runs
//! threads 2
//! 1 open plug
//! 1 call app f1 0 0 0                 each function of the program reads a variable of its own
//! 1 call app f2 0 0 0
//! 1 call app f3 0 0 0
//! 2 call plug f 1 0 0                 the module's function writes its argument to the module's variable
//! 2 call plug f 2 0 0
//! 2 call plug f 3 0 0
//! 2 peek plug v 4
//! 2 close plug
//! ```
//!
//! Object `gI.o` has one function, `fI`, and one thread-local variable of four bytes, `xI`. The variable's initial
//! value follows from that of the object before it: 5 times that plus 3, modulo 2^32, starting from N. The function
//! reads it by a General Dynamic, an Initial Exec or a Local Dynamic sequence, in turns (Drepper, "ELF Handling For
//! Thread-Local Storage"). The module's object `p.o` has a function `f` and a variable `v`.
//!
//! **The results for N = 3.** The variables of the program have the initial values 18, 93 and 468, since 5 * 3 + 3 =
//! 18, 5 * 18 + 3 = 93 and 5 * 93 + 3 = 468. Each call of the first thread returns one of them, and their sum is 579,
//! in hexadecimal 243. Each call of the second thread returns the address of its own copy of `v`, three times the
//! same. If a run puts it at 0x20002000000, the sum of all is 3 * 0x20002000000 + 0x243 = 0x60006000243. The peek
//! shows what the last call wrote: `03000000`.
//!
//! **The rule that the crate keeps.** The text and the files are those that `specs/Generated` defines, in that order,
//! byte for byte, for every N up to 1,000: [`generated_text`] and [`generated_objects`] return these, or run out of
//! memory. Both take time that grows with N, since each object's value comes from the one before it.
//!
//! `specs/Shapes` defines the layout of an object's bytes: the header, the headers of the eight sections, and after
//! them the code, the variable, the symbols, the names of symbols, the names of sections and the relocations. `access`
//! has the code, line by line.
#![tactic(auto)]

mod access;
mod files;
mod shape;
#[cfg(test)]
mod tests;
mod text;

pub use files::{GeneratedFile, generated_objects};
pub use text::generated_text;
