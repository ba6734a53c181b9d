//! The parts of a thread.

ghost use Rattle.std.specs.Prelude.{◌≡◌, ◌<◌, ◌≤◌, ◌^◌};
ghost use Rattle.address_map.specs.Map.{block_place, pointer_of, stack_end, stack_start};

/// The size of a thread's stack, in bytes.
pub const STACK_SIZE: u64 = 65_536;

/// The thread pointer of a thread, which is numbered from 1.
pub fn thread_pointer(thread: u32) -> u64
    requires { thread ≤ 64 }
    ensures { result ≡ pointer_of thread }
{
    u64::from(thread) * (1 << 40) + (1 << 38)
}

/// The end of a thread's stack.
pub fn stack_end(thread: u32) -> u64
    requires { thread ≤ 64 }
    ensures { result ≡ stack_end thread }
{
    u64::from(thread) * (1 << 40) + (1 << 39)
}

/// The lowest address of a thread's stack.
pub fn stack_start(thread: u32) -> u64
    requires { thread ≤ 64 }
    ensures { result ≡ stack_start thread }
{
    stack_end(thread) - STACK_SIZE
}

/// Where a thread's block of the instance with this number begins: at a distance below the thread pointer if it has
/// one, else at the instance's own addresses.
pub fn block_place(thread: u32, number: u32, distance: Option<u64>) -> u64
    requires { thread ≤ 64 }
    ensures value { result ≡ block_place thread number distance }
    ensures low { result < 2 ^ 57 }
{
    match distance {
        Some(distance) => thread_pointer(thread).saturating_sub(distance),
        None => u64::from(thread) * (1 << 40) + u64::from(number) * (1 << 24),
    }
}
