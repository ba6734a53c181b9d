//! Laws of how a job's lines begin, in the meaning and in the machine, and of whole jobs. No code runs here.
//!
//! A line of a thread calls a function, opens or closes a module, or shows the bytes of a variable (`job_text`). It
//! begins with a look at the events so far (`thread_blocks`). Then the line ends at once, and may add an event; or a
//! call begins, and takes steps. The job's meaning and its machine do this by the same functions, over what is loaded
//! of objects and over what is loaded of linked images. The rule of the crate: **a line begins alike in both worlds**.
//! Threads that were related between two lines end it in the same way and are related again; or both are in a call, at
//! the same address; or the meaning's line is unclean, and nothing is claimed:
//!
//! ```text
//! line                  by meaning                             by machine
//! open m                adds e0, and says: opened 2            adds e0, and says: opened 2
//! call m f 7 0 0        in a call, at f's first byte           in a call, at f's first byte
//! call m nothing 0 0 0  refused: there is no such symbol       refused: there is no such symbol
//! peek m x 4            bytes 2a000000                         bytes 2a000000
//! peek m p 8            unclean: the base of a block           bytes f8ffffff3f010000, or others
//! close m               adds e1                                adds e1
//! ```
//!
//! A thread sees its own accepted open or close at once, before anything that other threads did meanwhile. So the law
//! of a line requires that what is seen is a front of the job's history, and that it is one with the line's own event
//! added (`order_laws` says why).
//!
//! **Joined** (`proofs/Worlds.antt`). `order_laws` takes related threads through all turns of an order, if each step,
//! each beginning of a line and each look in its middle keeps them related, and so do data that are lent
//! (`held_alike`). Beginnings and first states are here. What is left is a record of two laws of calls
//! (`CallsAreAlike`, `specs/Begun.antt`): one step of the meaning is one to four of the machine, and a look in the
//! middle of a call has the same result. With it:
//!
//! - all turns of a job leave both worlds related, or some line is unclean (`jobs_stay_alike`);
//! - a clean job prints what it means, line by line and event by event (`clean_jobs_print`);
//! - so does a clean thread by itself, whatever its turns see (`clean_threads_print`).
//!
//! They are for at most 64 threads, which is what a job can have. For any number they would be false: from thread 2^24
//! on a thread pointer is past 2^64.
//!
//! The laws of lines ([`laws`]) are `lines_begin_alike` and `events_are_one`; that of first states is
//! `jobs_start_alike`. All hold for any setting, any loads that are tied (`tied_meaning`) and any history.
#![tactic(auto)]

pub mod laws;
