//! Shows a person at a terminal how far a long command is.
//!
//! A link of ten thousand objects reads files for seconds, and prints nothing until it is done. If standard error is a
//! terminal, `main` wraps the host's store in a [`ProgressStore`], which says there what happens:
//!
//! ```text
//! tlsld: 4096 files fetched       after the first second, and then at most once a second
//! tlsld: writing out
//! ```
//!
//! The rule that the crate keeps: **nothing but these lines differs.** A contract sees only the store within, so the
//! clauses of each call are those of that store (`ports::Store`). If the clock or standard error fails, lines are lost
//! and nothing else. The lines and their times are only tested.
#![tactic(auto)]

mod store;

pub use store::ProgressStore;
