//! One line of numbers about a run, which `gen` prints.
//!
//! A transcript has a line for each line of each thread, 2,003 of them for the job of `gen 1000`. To compare two runs
//! of such a job, or to time them, it helps to see at a glance that they gave the same result. So this crate counts
//! and adds up: the sites of all images and how many of them were rewritten ([`SiteCounts`]), the lines and the
//! events of the transcript, the sum of what calls returned, and the bytes that were shown ([`summary`]).
//!
//! ```text
//! gen 3 sites 4 rewritten 3 lines 9 events 2 sum 0000060006000243 peek 03000000
//! ```
//!
//! **The rule that the crate keeps**: each number depends only on the images and the transcript (`specs/Summaries`),
//! and the sum is modulo 2^64, like the machine's own words.
#![tactic(auto)]

mod sites;
mod summaries;

pub use sites::SiteCounts;
pub use summaries::summary;
