//! The words for what an image is and what may be wrong with it: its rules in order, and its faults.
//!
//! A rule is about one place of a file, or about each entry of a table: a field of the header, a program header, an
//! entry of the dynamic array, a symbol, a relocation. The first broken rule decides which fault a file has, at the
//! first entry that breaks it. [`Rule`] lists them in that order (`specs/Rules` numbers them), and [`Rule::kind`]
//! says which kind of fault a broken rule is. `image_faults` defines what each rule requires.
//!
//! The rule that it keeps: **a fault is its kind and its offset in the file, and nothing more.** For example
//! `image 12456 TlsPlace` says that the symbol at offset 12,456 lies past the end of the TLS segment.
//!
//! The parts of an image that rules name are those of the System V ABI (gABI, "Program Loading and Dynamic Linking").
//! This crate uses no other crate of the repository.
#![tactic(auto)]

mod fault;
mod places;
mod rule;

pub use fault::{FaultKind, ImageFault};
pub use places::{FileKind, Places};
pub use rule::{EntryRule, FieldRule, Rule, TableRule};
