//! More small jobs, computed by the prover: all forms of sequences, three threads, and data of a late module.
//!
//! `closed_jobs` defines that a job's meaning and its machine print the same (`BothSay`), and has two jobs, with few
//! rewritten sequences and two threads at most. Here are more, each in both settings. No code runs here: definitions,
//! and laws that the prover computes.
//!
//! ```text
//! data16 lea y@tlsgd(%rip), %rdi                      rewritten: mov %fs:0, %rax
//! data16 rex64 call *__tls_get_addr@GOTPCREL(%rip)               lea -4(%rax), %rax
//!                                                     kept:      the object's own
//!                                                     meant:     one step
//! ```
//!
//! - `specs/EachForm.antt`: a program with each form of sequence that the jobs of `closed_jobs` leave out, for a
//!   variable of its own or of a library's; so each of the eight forms is kept in a job, and rewritten in one;
//! - `specs/HandedOver.antt`: a base and a descriptor that one thread stores in data and two others load, and
//!   addresses in a program that was moved;
//! - `specs/LateData.antt`: data of a late module after it was loaded again;
//! - `specs/NoStack.antt`: a late module that calls without a stack, which is unclean before any look;
//! - `specs/Library.antt`: the library of the first two, which is a startup image.
//!
//! Base and descriptor are different numbers in the two settings, and what is printed is the same: a thread that uses
//! another thread's base misses its own block, and a descriptor works in any thread.
#![tactic(auto)]

pub mod laws;
