//! Laws of shared data: a read gives what the last write left, in the order of turns. No code runs here.
//!
//! The threads of a job take turns (`thread_blocks`), and the data of images go from turn to turn: each turn begins
//! with all of them as the turn before left them, whoever took it. What does that mean for a programmer? Say a
//! program's code counts, `mov n(%rip), %eax; add $1, %eax; mov %eax, n(%rip)`, from 5 on, and thread 1, thread 2 and
//! thread 1 call it:
//!
//! ```text
//! Filled 1 (5 0 0 0)                                        the loader, before the first turn
//! Written 1 0 6, Written 1 1 0, Written 1 2 0, Written 1 3 0   thread 1
//! Written 1 0 7, ..                                         thread 2 read 6
//! Written 1 0 8, ..                                         thread 1 read 7
//! ```
//!
//! These lines are what is **told** of the turns (`specs/Told`): all changes of data in their order, each of an
//! instance of an image, at an offset (`specs/Changes`). A load fills the data of its instance, which is a new one
//! each time, and a store writes byte after byte. The checker computes these lines from the bytes of the image
//! (`proofs/Examples`).
//!
//! The rule of the crate: **what a thread reads at an address of an instance's data is what the last change there
//! left, of all that is told up to this step** ([`laws::reads_are_last_left`]; `last_left`). It holds for any order of
//! turns and any number of steps of one, so for each state that a step begins in; a step reads before it stores.
//! Between turns it holds for the data themselves, byte by byte ([`laws::data_are_last_left`]). Both hold for the
//! machine's threads and, over marked values, for what threads mean ([`laws::meant_reads_are_last_left`],
//! [`laws::meant_data_are_last_left`]), where a byte may be unknown, or a part of an address. All turns of a job are
//! such turns ([`laws::jobs_are_orders`], [`laws::meanings_are_orders`]).
//!
//! These laws are about addresses of data. Another law says which these are ([`laws::data_are_there`],
//! [`laws::meant_data_are_there`]): byte k of the data of each instance that a thread has seen live is at offset k of
//! the range that the load fills. There the thread reads what the last change of that byte left, and what it stores
//! there is told as the next. The reason is that nothing else that it holds lies there, where all that is loaded lies
//! below what threads have for themselves, and data at addresses that have their instance's number in them
//! (`specs/Places`, `LiesLow`). `linked_jobs` proves that of all images that are linked together.
//!
//! No definition of a step says which bytes it writes: a step is a function of registers and memory. So the same step
//! is made over a memory that notes each store (`noting`). Noting changes nothing ([`laws::notes_follow_the_machine`],
//! [`laws::notes_follow_the_meaning`]). A store goes to the first range that may be written at its address: the
//! thread's stack, one of its blocks, or data, whose owner and start give the instance and the offset.
//!
//! The other premise is what every job has: its image infos are in order. Then no two live instances have the same
//! number, by which a change names its instance.
//!
//! There is one proof for any values and any threads that satisfy three conditions (`proofs/Turns`, `TellAll`): what a
//! step, a line's first look and a look in its middle do with data is what is told of them. `proofs/Left` and
//! `proofs/Held` prove that the list of what a thread holds keeps each byte as told, under stores and looks, and
//! `proofs/Fits` that all data of live instances stay in it, each where it was loaded: who is live behind an event was
//! so before, or is loaded by it (`proofs/Legal`). All turns follow in `proofs/Orders`, and places in `proofs/There`.
#![tactic(auto)]

pub mod laws;
