//! The fixed records of ELF64 files: read from bytes, and written into bytes.
//!
//! An object that a compiler writes, a program and a shared object are all files of one format, ELF. Such a file is
//! little more than tables of records of fixed size. Its first 64 bytes are a *header*, which says what the file is
//! and where two tables lie. The *section headers* are the linker's view: code, data, relocations and names, each a
//! range of the file. The *program headers* are the loader's view: which ranges of the file to put where in memory.
//! Some sections are tables themselves: of *symbols*, the names that objects share; of *relocations*, the fields that
//! a linker fills in; and the *dynamic array*, by which a loader finds the tables of an image.
//!
//! This crate knows these six records, their tables and the texts of string tables, and nothing of what they are for:
//! it names types of relocation, and fills no field. A number in a record has 1, 2, 4 or 8 bytes,
//! the lowest byte first, as on every x86-64 system; one of them, the addend of a relocation, has a sign. For example,
//! these 24 bytes
//!
//! ```text
//! 04 00 00 00 00 00 00 00   13 00 00 00 02 00 00 00   fc ff ff ff ff ff ff ff
//! ```
//!
//! are the relocation entry `Rela { offset: 4, info: 0x2_0000_0013, addend: -4 }`: fill the field 4 bytes into the
//! section, for symbol 2, by the rule of type 19 (`R_X86_64_TLSGD`), with -4 added.
//!
//! The rule that the crate keeps: **a record is exactly the bytes at its offset.**
//! - `read_rela(bytes, at)` is `None` exactly where the record would pass the end of `bytes`. Any offset may be asked
//!   for, up to 2^64 - 1. Else it is the record whose fields stand there; no field is judged, and every 24 bytes are
//!   some entry.
//! - `write_rela(&entry, bytes, at)` requires that the record fits, as [`fits`] tests. It is then read again as
//!   `entry`, and no other byte changes.
//!
//! The other five pairs do the same for their record. No call takes memory. Numbers with a name in the standard, as
//! `SHT_RELA` or `R_X86_64_TLSGD`, are constants in the module of their record.
//!
//! The records are those of the System V ABI (gABI), chapters "Object Files" and "Program Loading and Dynamic
//! Linking", for files of class ELFCLASS64 with data encoding ELFDATA2LSB; what x86-64 adds is in its supplement
//! (psABI). `specs/Records` states each record's fields and their offsets, and `specs/Laws` and `specs/RecordLaws`
//! what callers may use of them.
#![tactic(auto)]

pub mod alignment;
pub mod dynamic;
mod field;
pub mod file_header;
pub mod program_header;
pub mod relocation;
pub mod relocation_row;
pub mod section_header;
pub mod strings;
pub mod symbol;

pub use dynamic::{DynamicEntry, read_dynamic, write_dynamic};
pub use field::fits;
pub use file_header::{Header, read_header, write_header};
pub use program_header::{Segment, read_segment, write_segment};
pub use relocation::{Rela, RelocationKind, read_rela, rela_numbered, write_rela};
pub use relocation_row::RelocationRow;
pub use section_header::{SectionHeader, read_section, section_numbered, write_section};
pub use symbol::{
    SymbolBinding, SymbolEntry, SymbolType, Visibility, read_symbol, symbol_numbered, write_symbol,
};
