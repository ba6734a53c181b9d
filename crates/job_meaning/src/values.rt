//! The values of registers, flags and bytes in the meaning.

/// One thread's block of an instance.
#[derive(Clone, Copy, PartialEq, Eq, Debug)]
pub struct Block {
    pub thread: u64,
    pub instance: u64,
    /// The address of the block's first byte. An offset field is added to this.
    pub start: u64,
}

/// A number that only the linker knows.
#[derive(Clone, Copy, PartialEq, Eq, Debug)]
pub enum Token {
    /// The base of a block: the number to which the block's offsets are added. A linker that rewrites may make it the
    /// thread pointer.
    Base(Block),
    /// The TLS descriptor of an instance for a symbol: the instance's number, and the symbol's number.
    Descriptor(u64, u64),
}

/// The value of a register.
#[derive(Clone, Copy, PartialEq, Eq, Debug)]
pub enum Word {
    Number(u64),
    /// Nothing is known of it.
    Undefined,
    Marked(Token),
}

/// The value of a flag.
#[derive(Clone, Copy, PartialEq, Eq, Debug)]
pub enum Flag {
    Truth(bool),
    /// Nothing is known of it.
    Unsettled,
}

/// The value of a byte of memory.
#[derive(Clone, Copy, PartialEq, Eq, Debug)]
pub enum Byte {
    Value(u8),
    /// Nothing is known of it.
    Hidden,
    /// One byte of a token's eight; byte 0 is the lowest.
    Part(Token, u8),
}
