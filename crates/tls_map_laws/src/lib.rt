//! Laws of thread-local storage: for each thread it is a map from instances and offsets to bytes. No code runs here.
//!
//! A `_Thread_local` variable is one that each thread has to itself (Drepper, "ELF Handling For Thread-Local Storage",
//! section 1). Behind it are thread pointers, blocks that are made late, module ids that come again, and code that
//! finds them in six ways. How much of this can a program see? Nothing, says this crate. Take a module with `int n =
//! 5` and four more bytes, which thread 2 opens, uses, closes and opens again:
//!
//! ```text
//! what the thread does                            what it has at n
//! it looks: instance 2 of the module is live      nothing: no access there is allowed
//! it asks for a variable of instance 2            05 00 00 00    the initial image
//! it writes 07 at offset 0                        07 00 00 00
//! it looks: instance 2 is live                    07 00 00 00
//! it looks: instance 2 is closed                  nothing
//! it looks: instance 3 is live; it asks for it    05 00 00 00    a new instance begins anew
//! ```
//!
//! The left column is a list of looks, questions and writes, and the right one is **the map** (`specs/Map`): at an
//! offset of an instance a thread has its own last write, else that byte of the initial image as it was loaded for the
//! instance, else zero (`byte_of`). It has an instance's storage from its first look that finds the instance live, or
//! from the first that is for one of its variables, to the first that finds it closed (`has_storage`). Nothing there
//! knows an address, a range, an id or a vector. Where blocks lie is told in one place, which reads off what a thread
//! does from its looks and stores (`specs/Acts`, `Told`; `Machine` and `Meaning` for their steps). Noting these changes
//! nothing ([`laws::notes_follow`], [`laws::notes_follow_meaning`]).
//!
//! The rule of the crate: **at all times each thread has of each instance exactly the storage of the map**
//! (`specs/Moments`, `AreMap`). While it has the storage, each byte that it reads at an address of the block is the
//! map's, and each write there is allowed; before and afterwards no access there is. The addresses are those of the
//! instance's own block, static or not, and no other instance of the history ever has them. What other threads do is
//! no part of a thread's list, so it changes nothing.
//!
//! It holds in the machine of every job of linked images, in any order of turns, between turns and after any steps of
//! one (`specs/Always`; [`laws::jobs_have_map`]), of a thread by itself at any points that rise
//! ([`laws::threads_have_map`]), so of each thread of a race ([`laws::racers_have_map`]); and of what the job means,
//! over marked bytes ([`laws::meant_jobs_have_map`], [`laws::meanings_have_map`]). A line whose own instance was
//! closed ends with `unloaded` ([`laws::closed_askers_end`], [`laws::meant_closed_askers_end`]). Points that do not
//! rise are no thread's: there an instance that was seen closed could be live once more, with its old number.
//!
//! What a fresh block holds is told of any images of a job ([`laws::fresh_blocks_are_filled`],
//! [`laws::fresh_blocks_are_long`]), and linked ones have room in it for their initial image
//! ([`laws::initials_fit`]).
//!
//! The proof carries an equation from step to step: what a thread holds are the blocks of the map, in the order of the
//! live instances, and data behind them (`proofs/Keeping`, `Fits`). Stores, looks and reaches keep it (`Entries`,
//! `Looks`, `Steps`), whatever the values are; machine and meaning each prove that their steps are such
//! (`proofs/Machine`, `Meaning`). That numbers never come again is in `proofs/Never`, that no two blocks of a history
//! share a byte in `Later` and `Live`, and that nothing else lies there in `Beside` and `Linked`.
#![tactic(auto)]

pub mod laws;
