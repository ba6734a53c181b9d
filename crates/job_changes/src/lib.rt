//! Changed jobs, made from a seed.
//!
//! The reader of jobs is tried by texts that are nearly right. So a change here keeps most lines as they were. It drops
//! one, moves it, exchanges two, adds one, or repeats up to three, seldom as often as 4,100 times; it puts another kind
//! in an image's line, a character in a line, or another word in a word's place: one of another line, a number at a
//! limit, a name that is too long, or a word that no line knows.
//!
//! ```text
//! image app exe main.o              image app exe main.o
//! threads 2                         threads 65
//! 1 call app f 2 0 0                1 call app f 2 0 0
//! ```
//!
//! **The rule of changes** (`specs/Lines`): a change makes at most one line that was not there, drops at most one, and
//! adds at most 12,300. A test that wants an end to each call lets no line ask for more fuel than it says
//! ([`JobLines::limit_fuel`], `specs/Fuel`).
//!
//! All changes are drawn from one fixed sequence of numbers ([`Generator`], `specs/Sequence`), so a seed names them.
#![tactic(auto)]

mod generator;
mod job_lines;
mod job_words;

pub use generator::Generator;
pub use job_lines::JobLines;
