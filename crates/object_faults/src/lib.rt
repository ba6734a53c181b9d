//! What may be wrong with a relocatable object: finds its first fault, or that it has none.
//!
//! A linker's input is a file of numbers: where a table lies, how long it is, which section defines a symbol. Any
//! of them may be wrong: a download was cut off, a tool has a bug, or someone attacks the linker. This crate
//! checks each of them once.
//!
//! The rule that it keeps: **an object is exactly a file without a fault**, and the fault that is returned is the
//! first: no earlier [`FaultKind`] stands anywhere, and this one at no lower section and, there, at no lower entry.
//! `specs/Faults` says what each kind means, one line each; it knows nothing of how the code looks for it. Each kind
//! takes one pass, and time and memory grow with what the tables hold: a name ends if it begins before the last zero
//! byte of its string table. Relocations, of which there are most, are walked over once (`specs/Walks`). Only if one is
//! at fault does a search for the first kind follow. Only if fields do not rise, as compilers write them, each byte
//! gets a mark that finds overlaps.
//!
//! An example. In an object of one variable the section headers may say
//!
//! ```text
//! .text   offset 0x240 size 9   flags AX      64 8b 04 25 00 00 00 00 c3      mov %fs:0, %eax; ret
//! .rela.text                    info 1        04 00 00 00 00 00 00 00  17 00 00 00 02 00 00 00  00 ..
//! ```
//!
//! The relocation fills the four bytes at offset 4 with the offset of symbol 2 from the thread pointer (type
//! 0x17, R_X86_64_TPOFF32). At offset 6, the field would pass the end of the nine bytes of `.text`: `RelocRange`
//! at section 2, entry 0.
//!
//! The format is that of the System V ABI (gABI, "Object Files") and of its supplement for x86-64 (psABI,
//! "Relocation"). Which sections linking keeps, and the limits on sizes, are this project's own: `specs/Classes` has
//! the table.
#![tactic(auto)]

mod checked;
mod class;
mod headers;
mod overlap;
mod reloc_tests;
mod scan;
mod section_tests;
mod symbol_tests;
mod symbols;
mod tables;
mod targets;
mod walk;

pub use checked::{FaultFree, fault_free};
pub use class::{SectionClass, kept_class};
pub use elf_records::RelocationKind;
pub use elf_records::section_header::has_bytes;
pub use object_rules::{FaultKind, ObjectFault};
pub use symbols::Symbols;
pub use tables::Tables;
