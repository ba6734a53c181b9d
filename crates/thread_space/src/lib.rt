//! A job thread's memory: its stack and TLS blocks, shared data, and the parts of live instances.
//!
//! A machine knows nothing of modules: it accesses bytes of a memory (`guest_operands`, `Space`). For a thread of a
//! job that memory is built from what several crates keep. Its stack is its own. Its TLS blocks are those of its
//! dynamic thread vector (`thread_vector`; Drepper, "ELF Handling For Thread-Local Storage", section 3). Data that is
//! not thread-local is one copy for all threads (`module_data`). Code, constants and the loader's own tables are read
//! from the images, relocated on each read (`loaded_modules`), so that no instance costs a copy of them.
//!
//! The rule that this crate keeps: **a thread reaches what was live at its last look, and nothing else.** An access to
//! a closed module's block, code or data fails, even if the bytes are still kept for other threads.
//!
//! For example, a program with 8 bytes of thread-local storage has opened a module, instance 2, with 12 bytes of it
//! and with data, and has asked for its block once. Thread 1 then reaches the ranges below. The first one that allows
//! an access decides:
//!
//! ```text
//! rw  0x17fffff0000       the stack, 65,536 bytes, fresh for each call
//! rw  0x13ffffffff8       the program's block, below the thread pointer
//! rw  0x10002000000       the block of instance 2
//! rw  0x108001000         the data of instance 2
//! r   0x14000000000       the thread pointer's own word (psABI, section 3.4.6)
//! x   0x400000            the program's code, which can be fetched and not be read
//! r   0x401000            its constants
//! x   0x108000000         the module's code
//! ```
//!
//! [`ThreadSpace`] is that memory. Contracts see what it keeps (`specs/Kept`): the vector, the data and the stack, and
//! from these the list of ranges above, which is the list in the definitions of `thread_blocks`, range by range. An
//! access walks the live instances in the order of that list. So the first range that holds an address decides in
//! both, and no proof is needed that no two ranges share an address. `Outline` is the part that no access changes,
//! such as the owners of the ranges: a caller still knows it after the machine has run.
//!
//! A look is [`ThreadSpace::look`], which gives the vector the events that the thread has not seen. `proofs/Looks` and
//! `LoadKept` prove that it leaves what the definitions of a look leave. [`JobNames`] finds functions and variables of
//! live instances by name, each with one table look-up.
#![tactic(auto)]

mod blocks;
mod bytes;
mod code;
mod finding;
mod names;
mod parts;
mod shared;
mod space;
mod stack;
mod words;

pub use bytes::Outline;
pub use names::{JobNames, names_cross_threads};
pub use space::ThreadSpace;
