//! Writes an instruction in the canonical one of its spellings.
//!
//! `amd64_subset` says which bytes spell an instruction, and most instructions have several spellings: a displacement
//! of 16 fits one byte or four, `mov %eax, %ecx` is 89 c1 or 8b c8, and a REX may be there though no bit of it is
//! used. `encode` takes the spelling with no redundant prefix, then the shortest, then the first in the rows of the
//! opcode map; the assembler mostly does the same. So of the spellings of `mov 8(%rsp), %eax`,
//!
//! ```text
//! 8b 44 24 08              ModRM, SIB for %rsp, a displacement of one byte
//! 8b 84 24 08 00 00 00     of four bytes
//! 40 8b 44 24 08           with a REX of which no bit is read
//! ```
//!
//! it writes the first.
//!
//! An `Instr` can hold numbers that do not fit its fields, such as a displacement of 2^40. So `encode` requires that
//! the instruction has a spelling; each decoded one has (`laws::spellable`). The bytes that it writes decode to the
//! same instruction, whatever follows them.
//!
//! `specs/Canonical` defines which values have a spelling and which spelling is written. `specs/Form` names the row of
//! the opcode map for each instruction, a line each, and `specs/Writing` the bytes. They restate the Intel 64 manual,
//! volume 2, chapter 2 and appendix A.
#![tactic(auto)]

mod form;
pub mod laws;
mod writing;

pub use writing::encode;
