//! The transcript of a job: the text that a run prints.
//!
//! Each line of a job's thread does one thing ([`job_text`]). Its result is an [`Outcome`]: a call returned a number
//! or ended early, a module was opened or closed, bytes were shown, or the line was refused. The line's *points* are,
//! for each look at the module history, the number of events that it saw. After the lines come the history's events,
//! each with the thread and the line that it belongs to. [`Transcript::text`] writes
//!
//! ```text
//! t1 l1 g0 opened 2                   thread 1, line 1, one look that saw no event
//! t1 l2 g1,1 = 0000000000000007       two looks, both after event 0
//! t2 l1 g1 bytes 00000000
//! e0 t1 l1 open plug                  event 0 is thread 1's line 1
//! ```
//!
//! The text depends only on the transcript and the job's names (`specs/Texts`): on no clock, no address of the host,
//! and no order in which threads happened to run. So two runs with the same outcomes print the same bytes.
#![tactic(auto)]

mod outcomes;
mod text;
mod transcripts;

pub use crate::outcomes::{Bytes, Line, LineFault, LineRefusal, Outcome, Points};
pub use crate::transcripts::{Transcript, transcripts_cross_threads};
