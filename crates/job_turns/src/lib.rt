//! Runs all threads of a job, turn by turn, up to their transcript.
//!
//! A job has up to 64 threads, each with lines of its own: calls of functions, opens and closes of images, and peeks
//! at thread-local variables. The threads never run at once. They take *turns*: a turn is one look at the history of
//! opens and closes, and the steps up to the next look. The job's `order` says which threads take the first turns.
//! Then the threads finish one after another, by number. So a job has one transcript, whatever machine runs it:
//!
//! ```text
//! order 1 2 1
//! t1: open plug / call f            t2: call f / close plug
//!
//! turn   thread   sees       does                                   history then
//! 1      1        nothing    line 1 opens plug                      e0
//! 2      2        e0         line 1 begins, asks for a block        e0
//! 3      1        e0         line 2 begins, runs to its end         e0
//! 4 ..   1        e0         its lines are over: nothing            e0
//! ..     2        e0         line 1 goes on with its block          e0
//! ..     2        e0         line 2 closes plug                     e0 e1
//! ```
//!
//! [`run_job`] does that: its clause says that it returns the transcript of `job_world`, the definition of a job over
//! loaded images. The definition is a fold over the whole order. Its threads are lists of ranges and states of a
//! machine, and each turn hands the shared data on to the next. The code keeps something else: a [`Runner`] for each
//! thread, with its memory ([`thread_space`]), one registry for the history ([`module_table`]), and one copy of the
//! data of all images ([`module_data`]). [`thread_turns`] takes the turns.
//!
//! **A runner** has the lines of one thread. Its turn ([`Runner::turn_with`]) is a look and the steps after it
//! (`taking`): the first look of a line (`lines`), or one in the middle of a call that asked for a block, and then the
//! machine's run (`running`) up to the call's end or its next look. When code calls `__tls_get_addr` or the function
//! of a descriptor (psABI, "TLS Descriptors"), the machine stops, and the run time answers in one step: at once for a
//! startup module, and after a look for any other, since a module that is closed by then must not be found. The clause
//! of a turn (`specs/Standing`, `TakesTurn`) is about every thread of the definitions that the runner stands for:
//! after the defined turn of that thread, the runner stands for it again.
//!
//! If no image of the job has data that threads share ([`has_data`]), only the history goes from turn to turn.
//! [`Runner::turn`] is for such jobs, and its clause (`specs/Alone`, `TakesOwnTurn`) has no data in it: the turn is
//! the one that the thread takes alone. A runner can be moved to another thread ([`laws`]), so threads that run at
//! once can each have one. `proofs/OwnTurns` proves both ways that this is the same turn as one that holds empty data.
//!
//! Between two turns the code *stands for* the threads of the definition (`specs/Progress`, `Stands`): the history and
//! the data are the same, and each runner stands for its thread and has seen a front of the history. A turn of thread
//! k keeps this:
//!
//! 1. the registry answers the thread's next line, and adds its event if it accepts the open or close;
//! 2. the thread gets the events that it has not seen, without its own, and the answer (`specs/Turning`);
//! 3. all other runners have seen no more than before, and the longer history still begins with what they saw.
//!
//! A turn of a finished thread changes nothing (`proofs/FinishedTurns`).
#![tactic(auto)]

mod alone;
mod answers;
mod asking;
mod job;
pub mod laws;
mod lines;
mod runner;
mod running;
mod taking;
mod threads;
mod turning;

pub use alone::has_data;
pub use asking::{Ask, LineAnswer, refused_close, refused_open};
pub use job::run_job;
pub use runner::Runner;
