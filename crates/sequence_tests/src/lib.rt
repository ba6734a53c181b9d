//! Tests of `sequence_match` and `relax_sites`: which sequences are found, and what replaces them.
//!
//! Clauses are proved in their own crates. These tests check that the tables agree with the standards and the tools:
//! objects as gcc writes them, with changes of each byte and relocation (`cases`), and for each sequence and register
//! the bytes that GNU as makes of it, with those that GNU ld leaves in its place (`rewritten`).
#![tactic(auto)]

#[cfg(test)]
mod cases;
#[cfg(test)]
mod objects;
#[cfg(test)]
mod rewritten;
#[cfg(test)]
mod sites;
