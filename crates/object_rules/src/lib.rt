//! The faults of a relocatable object: their kinds, in the order of the checks, and the place of a fault.
//!
//! A kind concerns the file as a whole, or each of its sections, symbols or relocations. The kinds of one of these are
//! checked by one search over an enum ([`SectionFault`], [`SymbolFault`], [`RelocFault`]); `specs/Kinds` gives each its
//! place among all kinds. `object_faults` defines when an object has a fault of each kind.
//!
//! The rule that it keeps: **a fault is its kind, its section and its entry there, and nothing more.** For example
//! `section 2 entry 0 RelocRange` says that the field of the first relocation in section 2 passes the end of the
//! section that it applies to.
//!
//! The parts of an object that faults name are those of the System V ABI (gABI, "Object Files"). This crate uses no
//! other crate of the repository.
#![tactic(auto)]

mod fault;
mod kinds;

pub use fault::{FaultKind, ObjectFault, fault_at};
pub use kinds::{RelocFault, SectionFault, SymbolFault};
