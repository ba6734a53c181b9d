//! Tests of symbols: definitions, bindings, exports, imports, refusals, and entries of the global offset table.
//!
//! Clauses are proved in `tls_symbols`, `link_needs`, `dynamic_symbols` and `got_pairs`. These tests check what no
//! clause says: that the definitions agree with the standard, on small images that a reader works out by hand and on
//! entries as GNU ld writes them; and that each public call returns. They call only public functions, so they stand
//! in a crate of their own, and the crates that they test are proved once.
#![tactic(auto)]

#[cfg(test)]
mod dynamic;
#[cfg(test)]
mod dynamic_images;
#[cfg(test)]
mod entries;
#[cfg(test)]
mod images;
#[cfg(test)]
mod names;
#[cfg(test)]
mod refusals;
#[cfg(test)]
mod words;
