//! Runs all threads of a job at once.
//!
//! `job_turns` lets a job's threads take turns in an order, so that a job has one transcript. Here each thread runs in
//! a thread of the host, and no order is given: all that they share is one history of opens and closes
//! ([`shared_modules`]). Two runs of one job may print different transcripts. Each is **raced** (`lawful_points`):
//! every thread took, at lawful looks, exactly the turns that its lines tell of.
//!
//! ```text
//! t1: open plug / call f            t2: call f
//!
//! t1 l1 g0 opened 2                 or   t1 l1 g0 opened 2
//! t1 l2 g1,1 = 000000000000000c          t1 l2 g1,1 = 000000000000000c
//! t2 l1 g0 refused not-open              t2 l1 g1,1 = 000000000000000c
//! ```
//!
//! # Rows of threads
//!
//! There are up to 64 threads, and at first one pass of the shared history for all of them. [`race_job`] cuts it in
//! two, gives each half to a thread of the host, and so on down to passes of one thread each (`rows`), which run
//! [`racing_thread::race_thread`]. The result of a row of threads is a `Row`: the lines of each, thread after thread,
//! and the events that its pass has seen. Two rows are joined as their passes are:
//!
//! ```text
//! threads   1 2          3 4
//! said      [s1, s2]  +  [s3, s4]   =  [s1, s2, s3, s4]
//! events    e0 e1     +  e0 e1 e2   =  e0 e1 e2            the longer list
//! ```
//!
//! # Why it is right
//!
//! A finished thread raced in the history that its pass had seen by then (`IsRacer`). That statement is about the
//! history in two places: each look saw a front of it, and the thread's own events in it are exactly those that its
//! looks added. Both stay true when other threads add events (`proofs/Stable`). At a join the longer history begins
//! with the shorter one, and no thread of the shorter row added the rest (`shared_modules`, `Agree`). So all threads
//! of both rows raced in the longer one (`proofs/Joined`), and in the end all raced in the whole history.
//!
//! A thread that the job lacks has a number in a pass too, and does nothing with it: no event in what its row has seen
//! is of such a thread (`specs/Rows`, `IsOfJob`), nor is one that others added. So in the end each event names a thread
//! of the job, and no event is one that nobody made (`lawful_points`, `EventsAreMade`).
//!
//! Each pass counts how often its looks loaded the history's length and took the lock, and joins add the counts up
//! (`specs/Rows`, `CountsLooks`). So a body that takes the lock at each look, or keeps a history of its own, can't be
//! proved. No theorem says that threads run at once; `race_tests` shows it.
#![tactic(auto)]

mod race;
mod racers;
mod row;
mod rows;

pub use race::race_job;
