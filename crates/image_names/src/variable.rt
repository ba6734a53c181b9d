//! A thread-local variable.

/// A variable of which each thread has its own copy.
#[derive(Clone, Copy, PartialEq, Eq, Debug)]
pub struct Variable {
    /// Its offset in each thread's block, in bytes.
    pub offset: u64,
}
