//! The instructions of x86-64 that a program with thread-local storage needs, as bytes and as values.
//!
//! The subset has the moves, the arithmetic, the jumps, calls and stack operations that a compiler
//! writes for small functions: about forty rows of the opcode map, each with every register, address
//! and prefix that it may have. `decode` reads the instruction at the front of some bytes, and
//! `begins` says whether bytes too few for one are the start of one. (The crate `amd64_encoder` writes one.)
//!
//! An instruction is spelled by up to 15 bytes, in this order:
//!
//! - prefixes: 64 adds the thread pointer (%fs) to the address of a memory operand; 66 and 2e only
//!   pad, 66 before a nop or a REX with W, 2e before a nop;
//! - REX, 40 to 4f: W for 64 bits, and the fourth bits of three register numbers;
//! - the opcode of one byte, or of two that begin with 0f (endbr64 alone has four);
//! - ModRM, which names a register and an operand, and SIB, where the operand has an index or %rsp or
//!   %r12 as its base;
//! - a displacement and an immediate, little-endian and sign-extended.
//!
//! So `mov %fs:16(%rax,%rcx,4), %rdx` is
//!
//! ```text
//! 64    48     8b      54      88    10
//! %fs   REX.W  mov     ModRM   SIB   16
//! ```
//!
//! Two spellings may be one instruction: a displacement of 16 fits one byte or four, `mov %eax, %ecx` is 89 c1 or 8b
//! c8, and a REX may be there though no bit of it is used. An `Instr` is what they have in common. `Decoded` adds what
//! a linker needs of the spelling that it found: the length, and where the four-byte fields lie.
//!
//! A linker rewrites code in place, and a machine runs code up to the end of mapped memory. Both read bytes in parts,
//! and must tell bytes that are not an instruction from bytes that end too early: hence `begins`. No spelling is a
//! prefix of another (`laws::one_spelling`), so a decoded instruction stays the same whatever follows.
//!
//! `specs/Spelling` defines which bytes spell an instruction, and `specs/Row` has the opcode map. They restate
//! the Intel 64 manual, volume 2, chapter 2 and appendix A, as does AMD's, volume 3; the operands of
//! the code sequences are those of the x86-64 psABI, in its part on thread-local storage. The opcodes
//! of 8 and 16 bits, the string, vector and system instructions, and prefixes that lock or repeat are
//! left out.
#![tactic(auto)]

mod fault;
mod instr;
pub mod laws;
mod meaning;
mod numbers;
mod operand;
mod prefix;
mod reading;
mod row;
mod selectors;

pub use amd64_words::Register;
pub use instr::{Arithmetic, Condition, Decoded, Instr, Operation, Shift, Target, Width};
pub use operand::{Base, Index, Memory, Operand, Operands, Scale};
pub use reading::{begins, decode};

/// The parts of an instruction's encoding that `specs/Spelling` names, for the encoder.
pub mod encoding {
    pub use crate::meaning::Body;
    pub use crate::numbers::Numbers;
    pub use crate::prefix::{Prefixes, Rex};
    pub use crate::row::{Action, Group, Numbered, Row};
    pub use crate::selectors::Selectors;
    pub use amd64_words::Size;
}
