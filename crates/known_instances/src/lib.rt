//! Definitions and laws of instance numbers: each stands for one instance in a job. No code runs here.
//!
//! Each load of an image makes a new instance of it, with a number that no instance had before (`module_table`). A
//! module that is closed and opened again comes back as another instance, at other addresses, with blocks of its own.
//! Its module id, the number that code passes to `__tls_get_addr` (Drepper, "ELF Handling For Thread-Local Storage",
//! section 3), may be one that another module had before; only startup images have ids that never change.
//!
//! A job of a program and two late modules, `a` and `b`:
//!
//! ```text
//! event         live behind it (image: number, id)
//!               app: 1, 1
//! opens a       app: 1, 1    a: 2, 2
//! closes a      app: 1, 1
//! opens b       app: 1, 1                b: 3, 2      id 2 again, and a number that none had
//! opens a       app: 1, 1    a: 4, 3     b: 3, 2
//! ```
//!
//! A thread sees a front of this list, and threads see different ones. The rule of the crate: **in all fronts of a
//! legal history a number stands for one instance**, the same record of image, number, id and offset, wherever it is
//! live. So one function of the whole history, `known_in`, gives the instance of a number. It also works for numbers
//! that a thread still has in its registers, or that another thread wrote into data: here 2 is the first instance of
//! `a`, even after that is closed.
//!
//! A history is legal if each event was accepted after those before it, as each history of a job is
//! (`thread_blocks::laws::histories_are_legal`). The laws ([`laws`]):
//!
//! - an instance that is live in some front is the known one of its number (`numbers_are_known`), and a known one
//!   is live in some front (`known_instances_lived`);
//! - the id of a live instance finds that instance (`ids_are_own`);
//! - a startup image's instance is live in every front, and its id is its number (`startup_instances_stay`); no late
//!   instance has such an id (`late_ids_are_late`).
//!
//! Other lemmas about a live instance are in `proofs/Placed.antt` and `proofs/StartupNumbers.antt`: its number is
//! below 2^12 and not 0, its block ends below the thread pointer if it has an offset, and instance 1 is the program's.
#![tactic(auto)]

pub mod laws;
