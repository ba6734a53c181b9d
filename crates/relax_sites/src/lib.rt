//! Relaxation: cheaper code sequences in place of those that reach thread-local storage.
//!
//! A compiler does not know which image its code becomes a part of. If that may be a module that a thread opens late,
//! the code asks the run time for the address of a variable; if it is a program that may get the variable from a
//! module, the code reads the variable's offset from the thread pointer in the GOT, a table of words that a loader
//! fills. A linker knows more. The offsets of a program's own variables are known when the program is linked, and
//! those of a module that is loaded with it when it is loaded. So the linker writes a cheaper sequence in place of
//! the general one ("relaxes" it).
//!
//! For example, `x` stands at offset 8 of a program's block, which begins 24 bytes below the thread pointer. From
//!
//! ```text
//! 66 48 8d 3d 00 00 00 00    lea x@tlsgd(%rip), %rdi
//! 66 66 48 e8 00 00 00 00    call __tls_get_addr@plt
//! ```
//!
//! the linker makes, with x@tpoff = 8 - 24 = -16 in the last field,
//!
//! ```text
//! 64 48 8b 04 25 00 00 00 00    mov %fs:0, %rax
//! 48 8d 80 f0 ff ff ff          lea x@tpoff(%rax), %rax
//! ```
//!
//! There are two tables, and a call for each:
//!
//! - [`choice`] maps a site's form, its symbol's binding, the kind of image and the user's setting to a [`Choice`].
//!   Modules keep all of their sites, and so does every image that is linked without rewriting.
//! - [`rewrite`] maps a form and a choice to bytes; [`new_field`] says which field those bytes have, at which offset
//!   and of which type, so that no other crate repeats it.
//!
//! The rules that the crate keeps: **the bytes of its row replace a site, as many as it had, with zeros in the
//! field**, and
//! **no byte outside the site changes**. Neither call allocates memory.
//!
//! The sequences are those of "ELF Handling For Thread-Local Storage" (Drepper), section 5, and of the psABI
//! ("Thread-Local Storage"). `specs/Choices` has the first table, `specs/Rows` the second, with one row on a line.
#![tactic(auto)]

mod choices;
mod choosing;
pub mod laws;
mod rewriting;
mod rows;

pub use choices::Choice;
pub use choosing::choice;
pub use rewriting::rewrite;
pub use rows::{NewField, new_field};
