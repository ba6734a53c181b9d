//! Which modules are loaded, under which numbers: all computed from the history of opens and closes.
//!
//! A program with thread-local variables consists of *modules*: the program itself, the shared objects that start with
//! it, and those that it opens while it runs, such as plug-ins. Every thread has a block of each module's variables,
//! and code reaches a block in one of two ways (Drepper, "ELF Handling For Thread-Local Storage", sections 3 and 4):
//!
//! - by a *module id* and an offset, which it passes to `__tls_get_addr`. Ids are small and are used again after a
//!   module is gone, since they are slots in an array of each thread, the dynamic thread vector;
//! - at a fixed distance below the thread pointer. That works for modules that start with the program, whose blocks
//!   are laid out once, and for late ones that say so (`DF_STATIC_TLS` in the gABI's dynamic array), as long as a
//!   reserve of bytes lasts: the *static surplus*, here 4,096 bytes past the last startup block.
//!
//! This crate decides which module is loaded, and under which numbers. It keeps one list, the *history*: each
//! accepted open and close with its thread and line. **All answers depend only on that list.** A late image is loaded
//! while its opens outnumber its closes. Each load makes an *instance* with the next number, and no number is used
//! twice. The instance gets the least module id that no live instance has, and, if its blocks are static, an offset
//! in the surplus that is never given again:
//!
//! ```text
//! images: 1 app (starts, 4 bytes), 2 plug, 3 other (late, 8 bytes at an alignment of 4, static)
//!                     answers                     live instances: instance/id/offset
//! open 2              instance 2, id 2, at 0      1/1  2/2/12        round(4 + 8, 4) = 12
//! open 3              instance 3, id 3, at 1      1/1  2/2/12  3/3/20
//! open 2              instance 2, id 2, at 2      1/1  2/2/12  3/3/20
//! close 2             not gone, at 3              1/1  2/2/12  3/3/20
//! close 2             gone, at 4                  1/1  3/3/20
//! open 2              instance 4, id 2, at 5      1/1  3/3/20  4/2/28
//! open 1              refused: Unknown            as before
//! ```
//!
//! [`Registry`] is the history with its questions. [`ModuleTable`] is the state after a history, updated event by
//! event, for callers that follow a history that another keeps. Both answer from tables: no question walks the
//! history or allocates memory, and the cost of an open or a close does not grow with the history. [`laws`] states
//! what holds of every history. `specs/Past` has the definitions, a walk along the list of events; `specs/History`
//! the answers, and `specs/Laws` the laws.
#![tactic(auto)]

mod events;
mod ids;
pub mod laws;
mod modules;
mod registry;
mod start;
mod table;

pub use crate::events::{CloseRefusal, Closed, Event, OpenRefusal, Opened};
pub use crate::modules::{ImageInfo, Module};
pub use crate::registry::Registry;
pub use crate::table::ModuleTable;

/// The most instances of modules that are ever made, startup ones included.
pub const MOST_INSTANCES: u32 = 4095;

/// The greatest module id: no more images can be loaded at the same time.
pub const MOST_IDS: u32 = 64;

/// How many bytes of a thread's static block are reserved for late modules.
pub const SURPLUS: u64 = 4096;
