//! A machine's operands: where they lie, and how they are read and written.
//!
//! Most of what an x86-64 instruction does is to find its operands. Each is a register, a number in the
//! instruction's own bytes, or memory at a base register plus an index times 1, 2, 4 or 8 plus a displacement
//! (Intel's manual, volume 1, section 3.7.5), to which the FS prefix adds the thread pointer (psABI, section 3.4.6).
//! Finding operands is the same for mov and for imul, and is done here: what a machine holds ([`State`]), what a
//! memory lets it do ([`Space`]), and each way to read and write an operand. `guest_machine` builds instructions,
//! steps and runs on it.
//!
//! An example. `48 8b 44 f7 10` spells mov 0x10(%rdi,%rsi,8), %rax. With 0x5000 in %rdi and 2 in %rsi [`address`] is
//! 0x5020, and [`carried`] is the word of the eight bytes there. If one of them may not be read, it is `Stop::Address`
//! with the instruction's own address. In `64 48 8b 44 f7 10` the thread pointer is added too.
//!
//! **A word is moved or used.** The parameter `Values` of `guest_arithmetic` says what words are. A word may have no
//! number, such as the base of a thread's block, which the linker is free to choose. [`carried`] moves such a word
//! whole; nothing is known of a part of it. An address is used, and so is what [`take_operand`] reads: if it has no
//! number, the stop is `Unclean` with the first cause.
//!
//! The rule that the crate keeps: **a stop changes nothing.** An instruction's registers are used before its memory is
//! accessed; a load changes nothing; [`store`] and [`put`] write an operand whole or not at all.
//!
//! Contracts see a memory as ranges of bytes with rights, and the addresses of offset fields (`specs/Ranges.antt`).
//! Each access is defined by its single bytes (`specs/Access.antt`); operands are in `specs/Operand.antt`.
//! **An access changes bytes and nothing else.** A memory may hold more, such as modules, threads and their blocks.
//! The ghost member `rest` of [`Space`] is the part of it that no access changes, and every function that takes a
//! memory to change it promises to keep `rest`.
#![tactic(auto)]

mod frame;
mod operand;
mod slot;
mod space;
mod state;
mod stop;
mod uses;

pub use frame::{Frame, frame_at};
pub use operand::{address, carried, charged, kept, kept_byte, size, unmoved};
pub use slot::{Slot, Taken, number_at, put, take_operand};
pub use space::{Access, Size, Space};
pub use state::{Registers, State, register, set_register, start};
pub use stop::Stop;
pub use uses::{load, store, used};
