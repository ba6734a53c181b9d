//! Laws of the job that `gen N` makes: it has no fault, and its objects link. No code runs here.
//!
//! `gen` makes a job, and then does with it what `run` does with a job from files: it reads the job and each object,
//! finds the sequences, links the images and runs the threads. Each of these steps may refuse its input, and then says
//! which rule is broken. `gen 1000` must not be refused, or that status of `gen` would have to be explained. The laws
//! here say that no refusal comes, whatever N is:
//!
//! - **the text spells a job** ([`texts`]): each line has its words, its numbers and its names, and the lines declare
//!   a program of N objects, a late module, and two threads with their lines;
//! - **each object is one** ([`objects`]): it breaks no rule of an object file (gABI, "Sections", "Symbol Table",
//!   "Relocation"), and each TLS access is a sequence of the psABI;
//! - **they link** ([`links`]): each name has one definition, of the kind that its uses need; the sections, the
//!   relocations and the names keep within the limits of an image; and each field holds its value.
//!
//! The rule of the crate: **a generated job is held to the same definitions as one from files**. Nothing here depends
//! on how `gen` makes its bytes, but only on the bytes (`generated_job`), and on the faults that the readers and the
//! linker report. The proofs go by what an object says and not by the offsets of its bytes: `ReadsAs`
//! (`specs/Reading`) lists it, section by section and symbol by symbol, for any object with one function and one
//! variable.
//!
//! For example, object 2 of `gen 3` has the function `f2` and the variable `x2`, and its code is
//!
//! ```text
//! 48 8b 05 00 00 00 00    mov x2@gottpoff(%rip), %rax
//! 64 8b 00                mov %fs:(%rax), %eax
//! c3                      ret
//! ```
//!
//! Its one relocation is that of an Initial Exec sequence, `x2` is defined in this object alone, and the linker puts
//! the distance from the thread pointer there. It fits four bytes, since three objects have twelve bytes of
//! thread-local storage in all.
#![tactic(auto)]

pub mod links;
pub mod objects;
pub mod texts;
