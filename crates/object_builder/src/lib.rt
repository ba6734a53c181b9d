//! Relocatable objects for tests: sections and symbols in, the bytes of a file out.
//!
//! A test that needs an object names its sections and symbols, and never a byte of the file:
//!
//! ```text
//! let sections = [
//!     // section 1, and its relocations in section 2
//!     Section::code(b"\x64\x8b\x04\x25\0\0\0\0\xc3").with(&[rela(4, R_X86_64_TPOFF32, 2, 0)]),
//!     // section 3
//!     Section::variables(b"\x2a\0\0\0"),
//! ];
//! let symbols = [Symbol::global(b"f", STT_FUNC, 1, 0, 9), Symbol::global(b"x", STT_TLS, 3, 0, 4)];
//! let bytes = object_of(alloc, &sections, &symbols)?;
//! ```
//!
//! Sections are numbered from 1 in their order. The relocations of a section are a section of their own, right after
//! it, as assemblers write it (gABI, "Sections"). Then come the symbol table, its names, and the names of sections.
//! Symbols are numbered from 1 in their order; LOCAL ones come first, as the gABI requires ("Symbol Table").
//!
//! To make a malformed object, take its records from [`draft_of`], change a field, and write the [`Draft`].
//! `elf_records` writes the bytes, so each field stands where the gABI puts it. No call checks its input.
//!
//! [`put_header`] and its like for other records append records to the bytes of a file. Each ensures that these bytes
//! stay as they are, and that the records' bytes follow, one record after another.
#![tactic(auto)]

mod draft;
mod given;
mod header;
mod put;

pub use draft::{Draft, draft_of, object_of};
pub use given::{Section, Symbol, rela};
pub use header::object_header;
pub use put::{put_header, put_relocations, put_sections, put_symbols};
