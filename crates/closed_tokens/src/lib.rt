//! Small jobs that show bytes of tokens, or call the descriptor of a closed module: clean ones, and unclean ones.
//!
//! A base and a descriptor are numbers that a linker chose. A job's meaning has a token for each, which may be moved
//! anywhere, and used for one thing alone. `closed_jobs` defines that a job's meaning and its machine print the same
//! (`BothSay`). Here are two clean jobs of which that is true. Beside each is one that uses a token for something
//! else; the meaning says which step is unclean, and why. No code runs here: definitions, and laws that the prover
//! computes.
//!
//! ```text
//!                                           meaning        machine, rewritten    machine, kept
//! a line shows       a number               02020304..     02020304..            02020304..
//!                    a descriptor           unclean        f0ffffff..            10204000..
//! a reload, then     a new descriptor       ..03000004     ..03000004            ..03000004
//! code calls         the old descriptor     unclean        no such address       no such address
//! ```
//!
//! - `specs/Peeked.antt`: a program whose variables are shown, as numbers and as tokens;
//! - `specs/OldDescriptor.antt`: a late module whose descriptor lies in the program's data when it is closed and
//!   opened again, and the descriptor of its next instance;
//! - `specs/Unclean.antt`: a job that is unclean, in both worlds (`IsUnclean`).
#![tactic(auto)]

pub mod laws;
