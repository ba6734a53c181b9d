//! Whether a job is clean.
//!
//! `whole_meaning` says what a job's objects mean before anything is linked. Code and values are marked. A step is
//! clean if each image of the objects does the same there; else it is unclean, for one of nine causes. This crate runs
//! the job with these marks and returns its verdict ([`check_job`]): the first unclean step of the lowest thread that
//! makes one, or that there is none. [`verdict_text`] is the line that is printed:
//!
//! ```text
//! f:  lea x@tlsgd(%rip), %rdi         clean, and one step with the call: %rax is the address of x, %rcx is unknown
//!     call __tls_get_addr
//!     mov %rcx, %rdx                  clean: what is unknown is carried
//!     add $1, %rdx                    unclean t1 l1 at 0000000000400013 undefined
//! ```
//!
//! **A step** (`step`) asks its questions in the order of the definition. An unclean step has no effect.
//!
//! 1. Does a sequence begin here? It is one step (`sequence`). If it asks for a variable of an instance that came late,
//!    the thread looks first: after the sequence's own tests, before any effect.
//! 2. Else (`plain`), does something prevent the reading of an instruction: bytes of a sequence, or a field where none
//!    may be?
//! 3. Does the instruction begin at the linker's own bytes, or touch one? Then the step is unclean, for this cause or
//!    the one that it would have otherwise, whichever is first. To know the other cause, the step is tried in a copy of
//!    the memory.
//! 4. Else the instruction is done, or its operands give a cause.
//!
//! A call makes at most `fuel` steps (`running`). The step after the last one is tried in a copy too, for its cause.
//!
//! **A turn** (`thread`) is one look at the history of opens and closes, and the steps up to the next look. A thread
//! looks when a line begins (`lines`), and in the middle of a call. [`thread_turns`] takes the turns in the job's order,
//! over the data that threads share, and then those that bring each thread to its end. Further turns of a thread that
//! has nothing left to do would change nothing (`proofs/OneTurn`).
//!
//! **Each clause** is an equation between the definition's thread and what the code keeps of it (`marked_memory`). It
//! holds for every history that leaves the same live instances. `Stands` (`specs/Progress`) says it of all threads at
//! once.
#![tactic(auto)]

mod check;
mod lines;
mod live;
mod plain;
mod running;
mod sequence;
mod step;
mod thread;
mod turns;
mod verdict;

pub use check::check_job;
pub use verdict::verdict_text;
