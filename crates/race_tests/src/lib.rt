//! Tests of `job_race`: that its threads run at once.
//!
//! The clauses of `job_race` say what a transcript is. A body that ran one thread after another would satisfy them,
//! and no clause can exclude it. So a gate holds two threads back until each has waited for the other (`two_calls`).
//! Nor do the clauses say that 64 threads which all want the history at once finish (`many_opens`).
#![tactic(auto)]

#[cfg(test)]
mod growth;
#[cfg(test)]
mod images;
mod loading;

pub use loading::{Unready, loaded, race};

#[cfg(test)]
mod many_opens;
#[cfg(test)]
mod two_calls;
