//! What each type of relocation stores, said a second time: laws, and no code.
//!
//! `tls_relocs` defines the field that a relocation stores as a function: find the type's row, add and subtract, test
//! the range. Linker, loader and meaning all take it from there, so a slip in it would be no difference between them.
//! This crate says the same as a relation, from the standards: a table by the types' numbers with, for each, an
//! equation that the value X solves, how many bytes hold it, and which numbers fit. For example
//!
//! ```text
//! 23  R_X86_64_TPOFF32    X + B = O + A    4 bytes    -2^31 to 2^31 - 1
//! ```
//!
//! where O is the variable's offset in its block, and B how far that block begins below the thread pointer.
//!
//! The rule of the crate: **a field is stored exactly if some number solves the equation, fits, and is the field's
//! modulo its width**. [`types_are_listed`]: the table's numbers are those of the types that linking takes.
//! [`fields_are_stored`]: `stored_field` is the only answer. [`links_store_fields`]: so is what a link stores, with the
//! letters that the link has: S and O of the symbol that the relocation is bound to, P of the field, G of the entry.
//! Each relocation has letters ([`letters_are_there`]). That law asks that what the symbol is bound to has those that
//! the type takes, as a variable has O; where the names of the link have no fault it asks nothing of a relocation that
//! linking keeps ([`resolved_links_store_fields`]).
//!
//! The table is `specs/Table` (psABI for x86-64, "Relocation Types"; Drepper, "ELF Handling For Thread-Local Storage",
//! sections 4.1 to 4.4), and the letters of a link are `specs/Links`. Which entry a relocation's field reaches, and
//! where symbols lie, is taken as it is defined.
#![tactic(auto)]

mod laws;

pub use laws::{
    fields_are_stored, letters_are_there, links_store_fields, resolved_links_store_fields,
    types_are_listed,
};
