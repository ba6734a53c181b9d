//! Why a run stops.

use guest_arithmetic::Cause;

/// Why a run stops. Each address is that of the instruction that was not done.
#[derive(Clone, Copy, PartialEq, Eq, Debug)]
pub enum Stop {
    /// The call is over: the next address is 0x2000. Holds the number in %rax.
    Returned(u64),
    /// The caller has to answer a look: the address is 0x1000 or 0x1800.
    Look(u64),
    /// A byte does not allow the access. Holds the instruction's address, not the byte's.
    Address(u64),
    /// No instruction can be fetched there, or it is ud2.
    Code(u64),
    /// The step has no meaning.
    Unclean(u64, Cause),
    /// The limit of steps is reached.
    Steps(u64),
}
