//! Threads that take turns over a state that they share.
//!
//! A job's threads are numbered from 1, and never run at once. A turn of one thread may change that thread and the
//! shared state, and leaves the other threads as they are. Which thread is next is given from outside, as a list:
//!
//! ```text
//! order 1 2 1 3     thread 1 takes a turn; thread 2 takes one, over the state that this turn left; then thread 1
//!                   again. If the job has two threads, 3 is no thread, and nothing happens
//! ```
//!
//! A turn of a thread that has nothing left to do changes nothing either, so the code does not take it. That is how a
//! thread is brought to its end: definitions give it more turns than it can need, `4 * fuel + 2` for each of its lines
//! (`thread_blocks/specs/Turns`, `finishing`), and the code takes those that there are.
//!
//! What a thread does in a turn is a trait, [`TurnTaker`]. It says what a turn leaves (`turned`), when nothing is left
//! to do (`is_done`), and what it asks of the threads and their state, so that each turn can be taken
//! (`fit`; `StayFit`: fit threads can each take a turn, `can_turn`, and stay fit).
//! [`Threads`] takes the turns. Its clauses (`specs/Orders`, `TakesTurns`) say that what it leaves came about by one
//! turn after another in the given order, each as the trait says.
//!
//! The threads above run lines of a job, over plain numbers or over marked values. What their turns are made of is here
//! once (`parts`): a thread's lines ([`Script`]), and how a first look, a run, a look in the middle of a call or a turn
//! ends.
//!
//! The crates above compare this with definitions of the same turns. They do so for one turn; what every turn keeps,
//! every order keeps, if a turn of a thread that is over changes nothing (`proofs/Orders`, `order_stands`).
#![tactic(auto)]

mod parts;
mod taker;
mod threads;

pub use parts::{Arguments, Ended, Resumed, Script, Started};
pub use taker::TurnTaker;
pub use threads::Threads;

/// More events than any memory holds, so a history has fewer.
pub const MOST_EVENTS: u64 = 1 << 61;
