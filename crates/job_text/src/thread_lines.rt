//! A line of a thread.

use crate::spelling::Name;

/// A line of a thread: what it does, and to which image (numbered from 1 in image order).
#[derive(Debug, Drop)]
pub struct ThreadLine {
    pub image: u32,
    pub action: Action,
}

/// What a line of a thread does to its image.
#[derive(Debug, Drop)]
pub enum Action {
    /// Calls the function `symbol` with three arguments.
    Call {
        symbol: Name,
        a: u64,
        b: u64,
        c: u64,
    },
    /// Opens the image.
    Open,
    /// Closes the image.
    Close,
    /// Shows `length` bytes, at most 4,096, of the thread-local variable `symbol`.
    Peek {
        symbol: Name,
        length: u32,
    },
}
