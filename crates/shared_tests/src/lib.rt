//! Tests of `shared_modules` with threads that run at once.
//!
//! Its clauses say what each call gives. These tests check what no clause says: that calls return while others go
//! on, that a look finds what another thread did, that a thread without memory stops no other, and that a refused
//! call can be made again.
#![tactic(auto)]

#[cfg(test)]
mod beside;
#[cfg(test)]
mod calls;
#[cfg(test)]
mod growth;
#[cfg(test)]
mod race;
pub mod start;
