//! Relocatable objects, read and checked.
//!
//! An assembler turns each source file into an *object*: a file of *sections* (code, constants, data), of *symbols*,
//! which name places in them, and of *relocations*, which say what a linker has to write where once it knows the
//! places. Linking joins objects into one image. Numbers in the headers of an object say where everything is: where a
//! table begins, how long it is, in which section a symbol is defined. Any of these numbers may be wrong: the file may
//! be truncated, the tool broken, or its author an attacker.
//!
//! [`Object::read`] tests each of them once, with `object_faults`. It returns an [`Object`] exactly if the bytes are
//! one that this linker takes. Else it returns the first [`FaultKind`] that holds, with its section and its entry.
//!
//! The rule that the crate keeps: **what an object lends is in the file and needs no further test.**
//! [`Object::section`], [`Object::symbol`] and [`Object::relocs`] lend parts in constant time and refuse none: the
//! bytes of a section are there, its alignment is a power of two, a relocation's field is in its section, and its
//! symbol has a place (`specs/Lawful`). None of these parts has a name, since a name ends at its first zero byte and
//! may be as long as the file. [`Object::section_name`] and [`Object::symbol_name`] find names on request, and
//! [`Object::short_symbol_name`] reads no further than its caller's limit.
//!
//! An example. In the object of one variable `symbol(2)` may be a GLOBAL symbol of thread-local storage, 4 bytes at
//! offset 0 of section 3. `symbol_name(2)` is `x`, and `relocs(1)` has one entry: at offset 4 of the code, `TpOff32` of
//! symbol 2.
//!
//! Reading also notes what most questions about relocations depend on: in which roles they name each symbol
//! ([`Object::roles`]), and what they have among them ([`Object::traits`]). So a linker looks for a fault among the
//! symbols, and at relocations only where there is one (`specs/Noted`).
//!
//! [`relocation_count`] counts the relocations of several objects, and [`is_tls_place`] tells whether a symbol is
//! thread-local, by its place.
//!
//! The format is that of the System V ABI (gABI, "Object Files") and of its supplement for x86-64 (psABI,
//! "Relocation"). `specs/Lent` states what is lent, as functions of the file's bytes.
#![tactic(auto)]

mod count;
mod noted;
mod object;
mod part;
mod part_names;
mod relocation;
mod relocs;
mod symbol;
mod tls_place;

pub use count::relocation_count;
pub use elf_records::{SymbolBinding, SymbolType, Visibility};
pub use noted::{Notes, Roles, Traits};
pub use object::Object;
pub use object_faults::{FaultKind, ObjectFault, RelocationKind, SectionClass};
pub use part::{SectionPart, SymbolPart};
pub use relocation::Relocation;
pub use relocs::Relocs;
pub use symbol::SymbolPlace;
pub use tls_place::is_tls_place;
