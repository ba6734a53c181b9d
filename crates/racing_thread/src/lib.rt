//! One thread of a job that runs while others do.
//!
//! The threads of a job take *turns*: a look at the history of opens and closes, then the steps up to the next look
//! (`job_turns`). Here no order says who takes the next turn. Each thread runs by itself, and all that it shares with
//! the others is one history (`shared_modules`). Its *pass* has the events that it has seen so far.
//!
//! ```text
//! thread 1, line 1: open plug       takes the lock, finds no event, adds event 0
//! thread 2, line 1: call f          newer? one load: no. Its look is at no event, and f is not there
//! thread 2, line 2: call f          newer? one load: yes. Takes the lock, finds event 0, and calls f
//! ```
//!
//! # A turn
//!
//! `looks` asks the history what the thread's next turn needs. A look is one load of the history's length. Only if it
//! has grown, the look takes the lock and adds the events that the pass lacked to the thread's list. An open or a
//! close always takes the lock: its answer depends on the whole history, and its event comes right after that. Then
//! the runner takes its turn with the new events and the answer, and the thread's own event is added to its list too.
//! A test watches and holds the lines by a [`Gate`].
//!
//! # What holds
//!
//! [`race_thread`] ensures that the thread printed what it would print *alone* at the points that it prints; that
//! these points are lawful in the history that its pass has seen (`lawful_points`, `IsRacer`); and that it loaded the
//! history's length and took the lock exactly as often as its printed lines tell (`specs/Tallies`).
//!
//! Between two turns there are the points so far, one list of events for each turn, and (`proofs/Going`)
//!
//! - the runner stands for the definition's thread after these points;
//! - their looks are lawful in the history that was seen: each sees a front of it with all that the look before saw,
//!   and its events that name the thread are those that the looks added;
//! - what the pass has seen is just what the runner knows.
//!
//! A turn finds a history that *other* threads continued, so all of this stays true, and the turn adds one point
//! (`proofs/Looking`). For the same reason nothing that others do later changes it, so a join of threads keeps it
//! (`shared_modules::laws`).
#![tactic(auto)]

mod gates;
mod looks;
mod racing;

pub use gates::{Gate, NoGate};
pub use racing::{Course, Raced, race_thread};
