//! What the symbol of a relocation is bound to, said a second time: laws, and no code.
//!
//! `tls_symbols` defines a name's binding as searches: the first GLOBAL definition, else the first WEAK one, else the
//! first startup image that lists the name among its exports. Linker, loader and meaning all take it from there, so a
//! slip in it would be no difference between them. This crate says the same as a relation that lists and searches are
//! no part of. Say two objects of one image have these symbols:
//!
//! ```text
//! a.o   1 x WEAK      2 y GLOBAL undefined
//! b.o   1 y WEAK      2 x GLOBAL
//! ```
//!
//! Then x is bound to symbol 2 of b.o, since a strong definition comes before any weak one, and y to symbol 1 of b.o.
//!
//! The rule of the crate: **a symbol is bound to exactly what the relation allows, and it allows one thing at most**.
//! `__tls_get_addr` belongs to the run time; a LOCAL symbol is bound to itself; a name to the definition that comes
//! before all others of its strength; and only where there is none, and for four types of relocation, to the first
//! startup image whose own definition of the name is thread-local and visible. [`bindings_are_only`]: `bound_to` is
//! the only answer, and None exactly where there is none. [`unbound_is_undefined`]: an image has the fault Undefined
//! exactly at its kept relocations, but those of type NONE, without an answer.
//!
//! The relation is `specs/Bound` (gABI, "Symbol Table"; Drepper, "ELF Handling For Thread-Local Storage", section 4).
//! What an object says of a symbol (its name, binding, place and visibility), and whether a place is thread-local, is
//! taken as `elf_object` defines it.
#![tactic(auto)]

mod laws;

pub use laws::{bindings_are_only, unbound_is_undefined};
