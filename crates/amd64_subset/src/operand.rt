//! What an instruction reads and writes: registers and operands in memory.

use amd64_words::Register;

/// What an address is counted from.
#[derive(Clone, Copy, PartialEq, Eq, Debug)]
pub enum Base {
    /// No register: 0.
    Absolute,
    /// A general register.
    Register(Register),
    /// The next instruction's address, %rip. Such an address has no index.
    NextInstruction,
}

/// What an index is multiplied by.
#[derive(Clone, Copy, PartialEq, Eq, Debug)]
pub enum Scale {
    One,
    Two,
    Four,
    Eight,
}

/// The second register of an address, and its factor. It is never %rsp.
#[derive(Clone, Copy, PartialEq, Eq, Debug)]
pub struct Index {
    pub register: Register,
    pub scale: Scale,
}

/// A memory operand: base plus index plus the instruction's displacement, modulo 2^64.
#[derive(Clone, Copy, PartialEq, Eq, Debug)]
pub struct Memory {
    /// The FS prefix: the thread pointer is added.
    pub from_thread_pointer: bool,
    pub base: Base,
    pub index: Option<Index>,
}

/// A register or an operand in memory.
#[derive(Clone, Copy, PartialEq, Eq, Debug)]
pub enum Operand {
    Register(Register),
    InMemory(Memory),
}

/// The operands that an instruction of two reads and writes. A register-to-register one has one value, whichever of
/// its two opcodes spelled it.
#[derive(Clone, Copy, PartialEq, Eq, Debug)]
pub enum Operands {
    IntoRegister { to: Register, from: Operand },
    IntoMemory { to: Memory, from: Register },
    /// The number is the instruction's immediate.
    Immediate { to: Operand },
}
