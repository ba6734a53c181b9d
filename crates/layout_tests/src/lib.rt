//! Tests of `tls_layout` and `tls_relocs`: the places of sections, and the values that relocations store.
//!
//! Clauses are proved in their own crates. These tests check what no clause says: places that a reader works out
//! by hand, the psABI's table of relocations, and each limit next to its number, since definitions use a limit by
//! its name. The tests call only public functions, so they stand in a crate of their own, and the crates that
//! they test are proved once.
#![tactic(auto)]

#[cfg(test)]
mod layouts;
mod limits;
#[cfg(test)]
mod values;
