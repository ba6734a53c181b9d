//! One history of modules that running threads share: a ticket lock, and a check for new events that costs one load.
//!
//! `module_table` keeps one list of opens and closes, which decides which modules are loaded. Here threads that run at
//! once share such a list. A loader has the same two needs: opens and closes must come one after another, and code that
//! reaches a variable must find out at little cost whether the list grew (Drepper, "ELF Handling For Thread-Local
//! Storage", section 3: a thread compares the generation of its own dynamic thread vector with the global one).
//!
//! # What a thread has
//!
//! A [`Pass`] speaks for some of the threads 1 to 64 and has a prefix of the history, its *seen list*.
//! [`Shared`] has the history:
//!
//! ```text
//! start      one pass, for all threads                  split, join   cut a pass in two, make two passes one
//! newer      has the history grown? one load            catch_up      take what the pass lacks
//! open       take what the pass lacks, then add         close         the same for a close
//!            one event                                  finish        the registry, once all is one pass again
//! ```
//!
//! # The words
//!
//! Three numbers of 64 bits, each read and changed in single steps, and one slot for the registry:
//!
//! ```text
//! word 0  ticket       the next ticket           draw: add 1, and keep what was there
//! word 1  serving      whose turn it is          wait until it is one's ticket; to leave, add 1
//! word 2  generation   the history's length      newer: one load; a new event: add 1
//! slot 0  the registry                           touched by nobody but the thread whose turn it is
//! ```
//!
//! Words 0 and 1 are a *ticket lock*, like numbered slips at a counter: threads are served in the order in which they
//! drew, and no two draw the same number. A turn of `open` is
//!
//! ```text
//! draw a ticket, wait for it           ticket 7 -> 8, serving = 7
//! take the registry out                the only place with the history is in this thread's hands
//! make room for what may be added      want of memory ends the turn here, with nothing done
//! load the generation                  so the pass has all of the history
//! ask the registry, add the event      accepted or refused, as if no other thread ran
//! put it back, add 1 to generation     from now on `newer` is true for the others
//! add 1 to serving                     ticket 8 is served
//! ```
//!
//! # Why it is right
//!
//! A proof cannot follow every way in which the steps of threads interleave. Instead it states what holds *between
//! any two steps*, whoever makes them: the rule (`specs/Rule`). Then each kind of step is checked once: if the rule
//! holds before the step, it holds after it (`proofs/Locks`, `Grows`, `Parts`, `Ends`). Since single steps do not
//! overlap, the rule always holds. In short:
//!
//! - there is one history, it is legal, and its length is the generation;
//! - each pass's seen list is a prefix of it, and the rest names none of the pass's threads: so a thread finds its
//!   own opens and closes where it left them, however many other events came meanwhile (`laws`);
//! - tickets that were drawn and not served lie between the two words, and no two are the same; the registry is in
//!   its slot with the whole history, or in the hands of the one seat whose ticket is being served, which noted the
//!   history when it took the registry. Nobody else can make the history longer meanwhile, so the note stays true;
//! - each thread has one pass that speaks for it.
//!
//! A pass's *view* (`board::View`) holds what is known of it. Views exist only in proofs, and cost nothing at run
//! time. Tickets, loads and turns are unbounded in views; only the words are counted modulo 2^64, and since at most
//! 64 threads wait, equal words are equal tickets (`proofs/Keeps`, `served`).
//!
//! No clause says that a thread gets its turn, or when: a call that waits promises what holds if it returns.
#![tactic(auto)]

mod board;
pub mod laws;
mod plays;
mod shared;
mod steps;

pub use crate::shared::{Pass, Shared};
