//! Tests of the program's outside, through public calls only: `command_line`'s words; `ports`'
//! files, output and progress.
//!
//! No clause says what a disk, a writer or `clap` holds. So the tests run a store over the host's files, and
//! over a disk that fails or stops where a test says so; a sink over such a writer; progress over such a
//! clock and standard error; and the words over those that users write. The store and the sink in memory have
//! clauses for all that they do.
#![tactic(auto)]

#[cfg(test)]
mod disk;
#[cfg(test)]
mod files;
#[cfg(test)]
mod many_files;
#[cfg(test)]
mod notes;
#[cfg(test)]
mod pieces;
#[cfg(test)]
mod progress;
#[cfg(test)]
mod words;
#[cfg(test)]
mod writers;
