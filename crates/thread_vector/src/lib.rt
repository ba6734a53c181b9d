//! One thread's blocks of each module's thread-local storage: its *dynamic thread vector*.
//!
//! Each thread of a program has its own block for the thread-local variables of each module, and reaches it in one of
//! two ways (Drepper, "ELF Handling For Thread-Local Storage", section 3). The blocks of startup modules, and of late
//! ones that ask for it, lie at fixed distances below the thread pointer (variant II). All others are reached through
//! the dynamic thread vector, an array with a slot for each module id: `__tls_get_addr` looks at the slot of the id
//! that it is given, and makes the block if there is none yet. So a thread pays for a module's block only once it uses
//! it.
//!
//! An id is used again once its module is closed, and modules come and go while a thread is busy with something else.
//! **A thread sees at its looks what is loaded, and a block belongs to one instance**: a slot names the instance of
//! its block, and is empty for any other. So the blocks of a thread are a function of the events that it has seen, and
//! of its own accesses:
//!
//! - a startup module has its block from the start;
//! - one that takes its block from the static surplus has it as soon as the thread sees it loaded;
//! - any other has it from the first access on;
//! - a block is dropped once the thread sees that its instance is closed, and its bytes change only by the thread's
//!   own writes.
//!
//! Thread t has the 2^40 addresses from `t * 2^40` on, and its thread pointer is p = `t * 2^40 + 2^38`:
//!
//! ```text
//! thread 1, images: 1 app (starts, 4 bytes `2a 00 00 00`), 2 plug, 3 fast (late, 8 bytes at an alignment of 4;
//! 3 static)
//!
//! new             app 1/1    2a 00 00 00 at p - 4     = 0x13ffffffffc
//! open 3, seen    fast 2/2   fresh       at p - 12    = 0x13ffffffff4     in the surplus, at once
//! open 2, seen    plug 3/3   no block yet
//! address(.., 3, 4)          fresh       at 2^40 + 3 * 2^24, answers 0x10003000004
//! close 2, seen   plug is gone, and so is its block; the next instance with id 3 begins with a fresh one
//! ```
//!
//! [`Dtv`] is the vector. Startup blocks and the 4,096 bytes of the surplus are allocated when it is made, so seeing
//! events allocates nothing and can't fail. A block that is there is found by one look at its slot. [`laws`] states
//! that no two blocks share an address, and that none lies on a stack or at a thread pointer. `specs/Vectors` has the
//! definitions; read `held` first, as all clauses use it.
#![tactic(auto)]

mod dtv;
pub mod laws;
mod slot;
mod start;

pub use crate::dtv::{AddressRefusal, Dtv};
