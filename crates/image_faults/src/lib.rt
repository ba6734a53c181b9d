//! What may be wrong with an image, that is a program or a module that a linker wrote: finds its first fault.
//!
//! A linker's output tells its loader where everything is: *program headers* say which bytes of the file to put at
//! which addresses; one of them leads to the *dynamic array*, and the array leads to a hash table, symbols, their
//! names and the relocations that are left to the loader. Every one of these numbers may be wrong. This crate checks
//! each of them once, and allocates no memory.
//!
//! The rule that it keeps: **an image is exactly what keeps every [`Rule`]**, and the fault that is returned is the
//! first: all earlier rules are kept, and no earlier entry breaks this one. It comes with its offset in the file.
//! `specs/` has the rules: `Fields` for the header, `Segments` for the program headers, `Array`, `Symbols` and
//! `Relocations`; `Faults` puts them in order. They know nothing of how the code finds a broken rule. Checking goes
//! through each table at most twice and searches no other table meanwhile (except for a LOAD, of which there are at
//! most ten), so its time is linear in the file's size.
//!
//! An example. The image of one function and one thread-local variable has five program headers,
//!
//! ```text
//! LOAD     offset 0x1000  vaddr 0x400000  filesz 9    X     64 8b 04 25 fc ff ff ff c3    mov %fs:-4, %eax; ret
//! LOAD     offset 0x2000  vaddr 0x401000  filesz 4    R     2a 00 00 00                   the variable's first value
//! LOAD     offset 0x3000  vaddr 0x402000  filesz 197  R     the array and the tables
//! DYNAMIC  offset 0x3000  vaddr 0x402000  filesz 96   R
//! TLS      offset 0x2000  vaddr 0x401000  filesz 4    R     memsz 4, align 4
//! ```
//!
//! With the variable's symbol at 5, past the 4 bytes of its TLS segment, it is refused as `image 12456 TlsPlace`.
//!
//! The format is that of the System V ABI (gABI, "Program Loading and Dynamic Linking"), of its supplement for
//! x86-64 (psABI) and of "ELF Handling For Thread-Local Storage". The narrow form that is required here is this
//! project's own: a byte's address decides its offset in the file, and the array has its entries in one order. Its
//! linker writes that form.
#![tactic(auto)]

mod array;
mod checked;
mod found;
mod headers;
mod loader_kind;
mod loads;
mod relocation_tests;
mod searches;
mod segments;
mod symbol_tests;
mod tables;
mod words;

pub use checked::fault_free;
pub use headers::Headers;
pub use image_rules::{
    EntryRule, FaultKind, FieldRule, FileKind, ImageFault, Places, Rule, TableRule,
};
pub use loader_kind::LoaderKind;
pub use segments::Segments;
pub use symbol_tests::GET_ADDRESS_STRING;
pub use tables::Tables;
