//! The forms of TLS code sequences: one table of their bytes and relocations, and what identifies a sequence in code.
//!
//! The psABI spells each of these sequences out byte by byte, so that a linker can recognize it and write a cheaper one
//! in its place. [`Form::row`] is the table, with a row for each form: its bytes, some fixed, some with a register, the
//! others the fields of relocations, and the types, offsets and addends of these relocations. For example
//!
//! ```text
//! Gd   66 48 8d 3d  r r r r    lea x@tlsgd(%rip), %rdi        TLSGD at 4, addend -4
//!      66 66 48 e8  r r r r    call __tls_get_addr@plt        PLT32 or PC32 at 12, addend -4
//! ```
//!
//! A sequence in code is a [`Site`]: its section and its place there, its form, the symbol that its first
//! relocation names, and the register that it writes. `sequence_match` finds sites in objects, and `relax_sites`
//! says what replaces each.
//!
//! The rule that the crate keeps: **the table is written once.** `specs/Forms` has it as definitions, and each row of
//! the code equals a row there. The crate knows only these bytes, and nothing of the objects that contain them.
//!
//! The forms are those of "ELF Handling For Thread-Local Storage" (Drepper, sections 4 and 5) and of the psABI
//! ("Thread-Local Storage").
#![tactic(auto)]

mod forms;
mod places;

pub use forms::{Call, Cell, Form, Row, Second, TO_END};
pub use places::Site;
