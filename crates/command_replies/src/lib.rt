//! How every command ends: with an exit status and a text, its output or the line of a refusal.
//!
//! A user sees two things of a command that has ended: its exit status, a number, and a text. A script decides
//! by the number and a person reads the text, so success with a text that was cut off is a wrong answer,
//! however right the work was.
//!
//! The rule that the crate keeps: **a command ends in exactly one of its output, a refusal of its input with a
//! status and a line of its own, a fault of its store or of its sink, and out of memory; and its text goes to the
//! sink in one piece.** Two statuses come only from writing a text: 4, the sink failed, and 1, memory ran out, with
//! the line `out of memory`.
//!
//! ```text
//! 0  linked app 12417                              the output, whatever the command makes
//! 2  usage                                         the words are no command
//! 3  store fault                                   a file was not got, or not put
//! 5  job 3 Number                                  line 3 of the job; 0 stands for the job as a whole
//! 6  object b.o section 2 entry 0 RelocRange       relocation 0 in section 2 of b.o
//! 7  link app Undefined b.o section 2 entry 1      the image app, at relocation 1 there
//! 8  image 12456 TlsPlace                          the offset in an image's file
//! 9  unclean t1 l1 at 0000000000400013 undefined   the first unclean step of thread 1, in its line 1
//! ```
//!
//! A step of a command returns a value or a [`CommandFault`], as [`whole_file`] and [`job_of`] do, and [`deliver`]
//! writes what all steps together give. A fault of the input goes as its reader found it up to the [`Reply`] that says
//! it ([`object_refusal`] and its like). `specs/` has the lines (`Says`), what a step may return (`Steps`, `Faults`)
//! and what a status means (`Statuses`, `Delivery`).
#![tactic(auto)]

mod fault;
mod fetched;
mod jobs;
mod refusal;
mod replies;
mod statuses;

pub use fault::CommandFault;
pub use fetched::whole_file;
pub use jobs::{image_place, job_of};
pub use refusal::{image_refusal, job_refusal, link_refusal, object_refusal};
pub use replies::{Reply, deliver, say, say_no_memory};
pub use statuses::Status;
