//! Unclean steps.

use guest_arithmetic::Cause;

/// An unclean step: its thread, line and address, and its cause.
#[derive(Clone, Copy, PartialEq, Eq, Debug)]
pub struct UncleanStep {
    /// The thread, from 1.
    pub thread: u32,
    /// The line of that thread, from 1.
    pub line: u32,
    /// The instruction's address; for a line that shows bytes, the byte's address.
    pub address: u64,
    pub cause: Cause,
}
