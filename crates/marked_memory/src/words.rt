//! Where the parts of a thread's memory lie, and the bytes of a number.

ghost use Rattle.std.specs.Prelude.{◌≡◌, ◌<◌, ◌≤◌, ◌^◌, IfOk};
ghost use Rattle.thread_blocks.specs.Instances.{block_start};
ghost use Rattle.thread_blocks.specs.MachineTurns.{pointer_word, word_bytes};
ghost use Rattle.whole_meaning.specs.Threads.{ops};

use address_map::{block_place, thread_pointer};
use guest_arithmetic::Values;
use guest_memory::{GuestRange, Rights};
use job_meaning::{Byte, MarkedValues};
use loaded_modules::Instance;
use std::alloc::{AllocError, Global};

/// The rights of the word at a thread pointer: it can only be read.
const CONSTANT: Rights = Rights {
    readable: true,
    writable: false,
    runnable: false,
};

/// Where a thread's block of an instance begins.
pub fn block_start(thread: u32, instance: &Instance) -> u64
    requires { thread ≤ 64 }
    ensures value { result ≡ block_start thread instance.now }
    ensures low { result < 2 ^ 57 }
{
    block_place(thread, instance.number, instance.offset)
}

/// One byte of a number; byte 0 is the lowest.
fn byte_of(number: u64, index: u8) -> Byte
    requires { index < 8 }
    ensures { result ≡ ops.byte_of (ops.word number) index }
{
    MarkedValues::byte_of(MarkedValues::word(number), index)
}

/// The eight bytes of a number, the lowest first.
pub(crate) fn word_bytes(number: u64) -> [Byte; 8]
    ensures { result ≡ word_bytes ops number }
{
    [
        byte_of(number, 0),
        byte_of(number, 1),
        byte_of(number, 2),
        byte_of(number, 3),
        byte_of(number, 4),
        byte_of(number, 5),
        byte_of(number, 6),
        byte_of(number, 7),
    ]
}

/// The eight bytes at the thread pointer. They hold the thread pointer, and can only be read.
pub(crate) fn pointer_word(alloc: Global, thread: u32) -> Result<GuestRange<Byte>, AllocError>
    requires { thread ≤ 64 }
    ensures { IfOk result (λ range. range ≡ pointer_word ops thread) }
{
    let pointer = thread_pointer(thread);
    let bytes = Vec::from_slice(alloc, &word_bytes(pointer))?;
    Ok(GuestRange::new(pointer, bytes, CONSTANT))
}
