//! Definitions and laws of two kinds of threads in one order of turns. No code runs here.
//!
//! A job's threads take turns in some order (`thread_blocks`): a turn looks at all events so far, holds the data that
//! threads share, takes steps up to its next look, and may add an event. Say the same lines are run twice in the same
//! order, once by the meaning of objects and once by a machine over linked images. The machine takes one to four steps
//! for each step of the meaning, and has four times as many:
//!
//! ```text
//! order 1 2 1         by meaning                           by machine
//! 1 call f            sees [], 3 steps, answers 7          sees [], 5 steps, answers 7
//! 2 open m            sees [], adds e0                     sees [], adds e0
//! 1 call g            sees [e0], step 2 is unclean         sees [e0], and does anything
//! ```
//!
//! The rule of the crate: **what is related stays related, up to the first unclean line**. If each step, each
//! beginning of a line and each look in its middle keeps a relation of what two threads hold, then so does a turn, and
//! so do the turns of all threads in any order, with the data that go from turn to turn. Events are the same on both
//! sides, and so are the lines. After a line of the first world is unclean nothing more is claimed; unclean lines
//! never go away.
//!
//! **A history is fixed in advance** (`specs/Alike.antt`): the one that the second world ends with. A thread sees
//! fronts of it, and after an accepted open or close it sees one event more, its own, before any other thread does. So
//! a proof that relations are kept may use both: what is seen is a front, and it is one with the thread's own event
//! added (`AtHistory`). The first alone would not be enough: after its own open a thread sees e0 in its memory, and
//! its next look has to go on from there.
//!
//! **Worlds** (`specs/Worlds.antt`) are related thread by thread, with their data (`SameWorld`). Data are lent to a
//! thread for its turn and taken back (`AreLent`), so what a thread holds has to be related with them and without.
//!
//! **Points** (`specs/Points.antt`) are the numbers of events that looks saw. A line tells its own points, so what
//! each turn saw can be rebuilt from a printed transcript and its history (`points_are_told`).
//!
//! The laws hold for any states, lines and events, and any relations: the lemmas `turn_alike` and `turns_alike`
//! (`proofs/Turns.antt`) and `order_alike` (`proofs/Worlds.antt`). A clause can quantify only over relations that a
//! test decides, so [`laws`] state them for those, and for threads of the meaning and of the machine.
#![tactic(auto)]

pub mod laws;
