//! Laws of the addresses of blocks. Each function does nothing; its contract is the law.

ghost use Rattle.module_table.specs.Past.{Past};
ghost use Rattle.loaded_modules.specs.Images.{JobImages};
ghost use Rattle.thread_vector.specs.Holding.{IsLeftBy};
ghost use Rattle.thread_vector.specs.Laws.{BlocksAreApart, BlocksLieBelow, ThreadsAreApart};

use crate::dtv::Dtv;

/// The thread's blocks of two live instances share no address.
pub fn blocks_are_apart()
    ensures { (images : JobImages) (p : Past) → IsLeftBy images p → BlocksAreApart images p }
{}

/// Blocks of two threads share no address, whatever events each has seen.
pub fn threads_are_apart()
    ensures { (images : JobImages) (p q : Past) → IsLeftBy images p → IsLeftBy images q → ThreadsAreApart images p q }
{}

/// Each address of a block is one of the thread's own 2^40, below the 8 bytes at its thread pointer and not on its
/// stack.
pub fn blocks_lie_below()
    ensures { (images : JobImages) (p : Past) → IsLeftBy images p → BlocksLieBelow images p }
{}

/// Compiles only if threads may move and share a type's values.
fn crosses_threads<T: Send + Sync>() {}

/// Threads may move and share a thread's vector.
pub fn vectors_cross_threads() {
    crosses_threads::<Dtv<'static>>();
}
