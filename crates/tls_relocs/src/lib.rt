//! What a relocation stores in its field, whether the value fits, and bytes written in place.
//!
//! An assembler does not know the address of a symbol. It leaves a *field* of zeros in the code or data, and next to
//! it a *relocation*: where the field begins, which symbol it is about, an *addend*, and a *type*, which says what to
//! compute and how wide the field is. A linker places everything first, and then computes each value and writes it.
//!
//! The psABI writes these values in letters: S is the address of the symbol, A the addend, P the address of the field
//! itself, and G the address of an entry in the GOT, the table of words that a loader fills. A call is `S + A - P`,
//! since the processor adds the field to the address after it (A is then -4, for the field's own four bytes). A
//! thread-local variable has no single address: its field holds `O + A` minus how far its module's block begins below
//! the thread pointer, where O is the offset in that block. For example, in
//!
//! ```text
//! 64 8b 04 25 fc ff ff ff    mov %fs:-4, %eax       R_X86_64_TPOFF32 of x at 4, addend 0
//! ```
//!
//! x stands at offset 0 of a block that begins 4 bytes below the thread pointer: 0 + 0 - 4 = -4.
//!
//! The rule that the crate keeps: **a value is a whole number, and a field holds it or it overflows.** No sum wraps
//! before the range is checked. [`value`] returns [`Overflow`] exactly where the value lies outside the range of its
//! type: from -2^31 to 2^31 - 1 for a signed field of 4 bytes, from 0 to 2^32 - 1 for an unsigned one; a field of 8
//! bytes holds every value modulo 2^64. Otherwise it returns a [`Field`] as wide as the type says, and [`apply`]
//! writes it and no other byte. Neither allocates memory.
//!
//! The crate is the lowest that writes into the bytes of an image, so it has the definitions for that:
//! `specs/Patches`, for writes in place, and `specs/Laid`, for parts at rising places with zeros in the gaps.
//! [`laws`] says that both agree with a reader who asks for one byte.
//!
//! The types are those of the System V ABI's supplement for x86-64 (psABI, "Relocation Types") and of Drepper's "ELF
//! Handling For Thread-Local Storage", section 4.4; `specs/Values` has the table, a row a line.
#![tactic(auto)]

mod fields;
pub mod laws;
mod values;

pub use fields::{Field, apply};
pub use values::{Overflow, value};
