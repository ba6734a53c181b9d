//! The TLS code sequences of an object: finds each one, or the first access that is not one.
//!
//! A thread-local variable has a different address in each thread. Code finds it by a few fixed sequences of
//! instructions, which the psABI spells out byte by byte, so that a linker can recognize one and write a cheaper one
//! in its place. The general one asks the run time:
//!
//! ```text
//! 66 48 8d 3d 00 00 00 00    lea x@tlsgd(%rip), %rdi        R_X86_64_TLSGD at 4 of x, addend -4
//! 66 66 48 e8 00 00 00 00    call __tls_get_addr@plt        R_X86_64_PLT32 at 12 of __tls_get_addr, addend -4
//! ```
//!
//! It is one *site* of the form [`Form::Gd`]: sixteen bytes, of which eight lie in the fields of two relocations and
//! the others are as shown. [`Form::row`] has the whole table, with a row for each form (`sequence_forms`).
//!
//! The rule that the crate keeps: **a site is what the table says, and nothing else is taken for one.** Its bytes are
//! those of the row, in code; its relocations stand where the row has them, with its addends; the second one names
//! `__tls_get_addr`, which the object does not define; and no other relocation changes a byte of the row.
//!
//! [`sites`] returns all sites of an object, rising. An object with an access that is not a site is at fault: a
//! relocation that belongs in a sequence and opens none is a `Sequence`, and another use of the undefined
//! `__tls_get_addr` a `StrayCall`. In the example above, an addend of 0 at offset 4 is `Sequence` at that entry, and
//! the call alone, with no `lea` before it, is `StrayCall`.
//!
//! Most sections have no TLS code, so the search first looks for a relocation of a section whose type occurs in
//! sequences or that names `__tls_get_addr`; a section without one has no site and no fault. In other sections it
//! goes through the relocations once: it matches each one of those types with the one or two rows that it can
//! open, and looks for each call of `__tls_get_addr` at the end of the last sequence found, then in every
//! sequence that it could end.
//!
//! To match a relocation that opens a sequence, the search compares the bytes around it, and then its neighbours.
//! Fields share no byte. So if relocations rise by offset, as compilers write them, the next ones show which bytes
//! are bare and which relocation is the second: in the example, the one before the first must end at 0 or before, and
//! the next one with a field must be at 12. Relocations that do not rise get two indexes by place, of fields and of
//! calls without a field; each relocation is in at most one of them, once.
//!
//! The forms are those of "ELF Handling For Thread-Local Storage" (Drepper) and of the psABI ("Thread-Local Storage").
#![tactic(auto)]

mod finding;
mod index;
pub mod laws;
mod matching;
mod near;

pub use finding::sites;
pub use sequence_forms::{Call, Cell, Form, Row, Second, Site};
