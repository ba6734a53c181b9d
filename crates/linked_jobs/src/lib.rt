//! The main theorems: what a clean job of linked images prints is what its objects mean. No code runs here.
//!
//! A reader of a job's objects can say what its threads compute without knowing a linker: each TLS sequence means one
//! step, each variable one block for each thread. That is the job's meaning (`whole_meaning`), and it is the same
//! whether sequences are rewritten or not. If the meaning is *clean*, so that nothing in it depends on what a linker
//! or a loader chose, the linked images must compute the same. [`linked_jobs_print`] says that they do, for every job
//! whose images link, in every order of turns: the machine's events and lines, thread by thread, are the meaning's.
//! [`linked_threads_print`] says it for one thread by itself, whatever the others do, at any points of a legal
//! history. [`transcripts_tell_their_threads`] says it for a transcript's lines: if threads share no data, what a
//! thread printed is what its lines mean at the points that it printed, if that is clean.
//!
//! The step between the two is [`links_are_tied`]: what a loader leaves of linked images is tied to what their objects
//! mean (`tied_meaning`, `AreTied`), at each time of a job.
//!
//! ```text
//! what is tied                              where it is proved
//! bytes of constants, data and blocks       loaded_bytes
//! functions, variables, sizes of blocks     loaded_names
//! code, the fields in it, where all lies    tied_fields, over the words of loaded_words
//! sequences                                 tied_sites
//! numbers, ids, and who is live             known_instances
//! what follows of a thread and of a job     call_alike
//! ```
//!
//! For example, thread 1 opens a module and calls its `f`, which asks for the module's own variable by a General
//! Dynamic sequence. The meaning has the variable's block, and no module id. The machine calls the run time with a
//! pair of words that a loader wrote, and finds the block by an id; the line that it prints is the same.
//!
//! **In the middle of a run** the tie says more (`specs/Answers`): wherever a clean meaning is in a turn, with this
//! many steps left, the machine's thread is in the same turn, with four times as many, and both are in one call. This
//! holds for a thread by itself ([`linked_threads_stand_alike`]) and in any order of a job's turns
//! ([`linked_jobs_stand_alike`]). It settles what a sequence finds. Say thread 1 asks twice for a variable at offset 4
//! of the program's block of 8 bytes, and its thread pointer is 0x14000000000:
//!
//! ```text
//!                            kept                                  rewritten as local exec   %rax
//! a general dynamic one      the run time, by an id and 4          thread pointer - 4        0x13ffffffffc
//! a call of its descriptor   the run time, by a descriptor         nothing is left to do     2^64 - 4
//! ```
//!
//! The first is the variable's address in the thread's own block, the second its distance from the thread pointer
//! ([`linked_sequences_find`]). So the two agree whether a linker kept or rewrote either ([`linked_answers_agree`]).
//!
//! **Data that threads share** need no clean meaning (`specs/Data`, [`linked_threads_share_data`]). Whatever a job's
//! threads do, in any order of turns, each byte of the data of each instance that a thread has seen live is at its own
//! address: what it reads there is what the last change left, a store or the load, and what it stores there is the next
//! change of that byte. `shared_data` proves it wherever all that is loaded lies below what threads have for
//! themselves, and data at addresses that tell their instance; what is tied lies so (`proofs/Low`). It holds of the
//! machine's threads, and of what they mean.
//!
//! The conditions on the links (`specs/Ready`) are what a reader of the job and of its objects has checked: they link,
//! together; files are bytes; no object has a loose relocation of a sequence or a stray call; the program comes first,
//! and images that are opened late come last; there are 64 images at most, and each has fewer than 2^32 objects, so
//! that no two symbols have the same number. There are 64 threads at most: from number 2^24 on a thread's pointer
//! would be past 2^64.
#![tactic(auto)]

mod laws;

pub use laws::{
    linked_answers_agree, linked_jobs_print, linked_jobs_stand_alike, linked_sequences_find,
    linked_threads_print, linked_threads_share_data, linked_threads_stand_alike, links_are_tied,
    transcripts_tell_their_threads,
};
