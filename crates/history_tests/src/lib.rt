//! Tests of `module_table` and `transcript_text`: the history of modules, and the text of lines and events.
//!
//! Clauses are proved in their own crates. These tests check what no clause says: numbers that a reader works out by
//! hand, some of which no job reaches, printed text, and each limit next to its number, since definitions use a
//! limit by its name. The tests call only public functions, so they stand in a crate of their own, and the crates
//! that they test are proved once.
#![tactic(auto)]

#[cfg(test)]
mod compared;
#[cfg(test)]
mod growth;
#[cfg(test)]
mod histories;
mod limits;
#[cfg(test)]
mod transcripts;
