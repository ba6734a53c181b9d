//! Instructions as values: what each does, and where its fields lie in its bytes.

use crate::operand::{Memory, Operand, Operands};
use amd64_words::Register;

/// The width of an operation. The 32-bit one clears the upper half of a register that it writes.
#[derive(Clone, Copy, PartialEq, Eq, Debug)]
pub enum Width {
    Long,
    Quad,
}

#[derive(Clone, Copy, PartialEq, Eq, Debug)]
pub enum Arithmetic {
    Add,
    Or,
    And,
    Sub,
    Xor,
    Compare,
}

#[derive(Clone, Copy, PartialEq, Eq, Debug)]
pub enum Shift {
    Left,
    Right,
    RightSigned,
}

/// When a conditional jump is taken, in the order of the encoding; the two parity conditions, 10 and
/// 11, are left out.
#[derive(Clone, Copy, PartialEq, Eq, Debug)]
pub enum Condition {
    Overflow,
    NotOverflow,
    Below,
    NotBelow,
    Equal,
    NotEqual,
    BelowOrEqual,
    Above,
    Sign,
    NotSign,
    Less,
    NotLess,
    LessOrEqual,
    Greater,
}

/// Where a jump or a call goes.
#[derive(Clone, Copy, PartialEq, Eq, Debug)]
pub enum Target {
    /// A distance from the next instruction's address, sign-extended to 64 bits.
    Relative(u64),
    /// The address that the operand holds.
    Indirect(Operand),
}

/// What an instruction does, without its displacement and its immediate.
#[rattlefmt::skip]
#[derive(Clone, Copy, PartialEq, Eq, Debug)]
pub enum Operation {
    /// mov
    Move { width: Width, operands: Operands },
    /// mov of a register's low byte
    StoreByte { to: Memory, from: Register },
    /// movzx from 8 bits
    ExtendByte { width: Width, to: Register, from: Operand },
    /// movslq
    ExtendLong { to: Register, from: Operand },
    /// lea
    LoadAddress { width: Width, to: Register, from: Memory },
    /// add, or, and, sub, xor, cmp
    Compute { arithmetic: Arithmetic, width: Width, operands: Operands },
    /// test
    Test { width: Width, left: Operand, right: Register },
    /// imul
    Multiply { width: Width, to: Register, from: Operand },
    /// shl, shr, sar, with the count as it is written
    Shift { shift: Shift, width: Width, to: Operand, count: u8 },
    /// push, of 64 bits
    Push { from: Register },
    /// pop, of 64 bits
    Pop { to: Register },
    /// leave
    Leave,
    /// call
    Call { target: Target },
    /// jmp
    Jump { target: Target },
    /// jcc
    JumpIf { condition: Condition, distance: u64 },
    /// ret
    Return,
    /// nop and endbr64: no access, and no use of the operand's registers
    Nop { operand: Option<Operand> },
    /// ud2
    Undefined,
}

/// An instruction. `displacement` and `immediate` are sign-extended to 64 bits, and 0 if it has none. They are kept
/// outside the operation, so that two instructions that differ only in such a field have equal operations.
#[derive(Clone, Copy, PartialEq, Eq, Debug)]
pub struct Instr {
    pub operation: Operation,
    pub displacement: u64,
    pub immediate: u64,
}

/// A decoded instruction, and where its fields lie in its bytes.
#[derive(Clone, Copy, PartialEq, Eq, Debug)]
pub struct Decoded {
    pub instr: Instr,
    /// The length in bytes, from 1 to 15.
    pub len: u8,
    /// Where the four-byte displacement of a memory operand begins, %rip-relative ones included. `None` exactly if it
    /// has none. The distance of a jump or a call is not a displacement.
    pub disp: Option<u8>,
    /// Where the four-byte immediate begins. `None` exactly if it has none.
    pub imm: Option<u8>,
}
