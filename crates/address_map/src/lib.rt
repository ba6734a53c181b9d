//! Which addresses a job's threads, the instances of its images and the run time have.
//!
//! All threads of a job live in one address space, and so do all images that it loads. Nothing in it is looked for: an
//! address tells by itself whose it is.
//!
//! ```text
//! 0x1000, 0x1800, 0x2000              what code calls of the run time, and where a call returns to
//! 0x400000 ..                         the executable, at the addresses that it was linked for
//! 2^32 + i * 2^26 ..                  instance i of an image that is moved when it is loaded
//! t * 2^40 + i * 2^24 ..              thread t's block of instance i, if it has an address of its own
//! .. t * 2^40 + 2^38                  thread t's blocks at fixed offsets, below its thread pointer
//! t * 2^40 + 2^38                     the thread pointer, which is the base of %fs
//! .. t * 2^40 + 2^39                  thread t's stack of 65,536 bytes, which grows down
//! ```
//!
//! The blocks below the thread pointer are those of "ELF Handling For Thread-Local Storage" (Drepper), section 3,
//! variant II; that the word at the thread pointer is its own address is the psABI's rule ("Thread-Local Storage").
//! How far an image is moved is its *load bias*.
//!
//! The rule that the crate keeps: **each of these numbers has one definition** (`specs/Map`), and an instance's addresses
//! tell its number (`specs/Laws`). What a job means, how it is run and how it is checked all name it. Threads are
//! numbered from 1 to 64, and instances have 32 bits.
#![tactic(auto)]

mod images;
mod run_time;
mod threads;

pub use images::{moved_bias, owner};
pub use run_time::{DESCRIPTOR, GET_ADDRESS, RETURN};
pub use threads::{STACK_SIZE, block_place, stack_end, stack_start, thread_pointer};
