//! The numbers that definitions choose, each beside its literal: laws, and no code.
//!
//! An address, a stride or a limit is written in one definition, which all name: where it is another number than the
//! guide's, linker, machine and meaning agree on that one. So each is said here once more, in digits:
//!
//! ```text
//! 0x1000, 0x1800, 0x2000                     what code calls of the run time, and where a call returns to
//! 0x400000, 0x104000000 + 0x4000000 ..       a program at fixed addresses, and instances that are moved
//! 0x14000000000 + 0x10000000000 ..           the thread pointers of threads 1, 2 ..
//! 1,048,576                                  bytes of a section, and of thread-local storage
//! 16,777,216   67,108,864                    addresses of all sections, and of an image
//! 64, 255, 4,096, 65,536, 100,000            what the text of a job may have
//! ```
//!
//! The rule of the crate: **a definition with another number makes a law false**. Of a stride the law says how far the
//! next one lies; of a limit, which numbers pass. `specs/Addresses` has the addresses ([`laws::run_time_lies`],
//! [`laws::threads_lie`], [`laws::images_lie`]), `specs/Sizes` the sizes ([`laws::objects_are_small`],
//! [`laws::links_are_small`], [`laws::images_are_small`], [`laws::instructions_are_short`]), and `specs/Jobs` the
//! limits of a job's text ([`laws::jobs_are_small`]).
//!
//! Numbers of a file format are constants with the standards' names: `formats_tests` has each beside its literal, and
//! `field_laws` the types of relocation.
#![tactic(auto)]

pub mod laws;
