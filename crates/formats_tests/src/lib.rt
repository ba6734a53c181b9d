//! Tests of the crates for file formats, through public calls only: one module for each crate.
//!
//! They stand in a crate of their own, as integration tests do, so that each tested crate is proved only
//! once. They test what no clause says: that the definitions agree with the standards, and that a call with
//! enough memory succeeds.
#![tactic(auto)]

#[cfg(test)]
mod built_objects;
mod constants;
#[cfg(test)]
mod growth;
#[cfg(test)]
mod jobs;
#[cfg(test)]
mod link_faults_tests;
#[cfg(test)]
mod noted_relocations;
#[cfg(test)]
mod objects;
#[cfg(test)]
mod records;
#[cfg(test)]
mod relocation_rows;
