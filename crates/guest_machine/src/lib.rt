//! A small x86-64 machine that runs what a linker made.
//!
//! A linked image is right if it does what its objects say. To see what it does it must run, so this crate has a
//! machine for the instructions that compilers write around thread-local storage: moves, arithmetic with the four
//! flags CF, ZF, SF and OF, pushes and pops, jumps, calls. `amd64_subset` says which bytes spell an instruction. What
//! an instruction does is defined here, by Intel's manual (volume 2), one definition for each, in `specs/Step.antt`.
//! `guest_operands` finds, reads and writes its operands.
//!
//! **A step** fetches up to 15 bytes at the machine's place, decodes an instruction, and does it whole or not at all.
//! `48 8b 07`, mov (%rdi), %rax, uses %rdi as a number, loads the eight bytes there, and puts them into %rax. If one
//! of them may not be read, the machine stops with `Address`, and registers, flags and memory are unchanged. `64 48 8b
//! 04 25 00 00 00 00`, mov %fs:0, %rax, adds the thread pointer, which a machine keeps beside its registers (psABI,
//! section 3.4.6).
//!
//! **A run** makes steps up to a stop. At 0x2000 a call is over, and %rax is its result. 0x1000 is the address of
//! `__tls_get_addr`, and 0x1800 that of the function of a TLS descriptor: there the machine stops with `Look`, the
//! caller finds the address, and `answer` puts it into %rax and returns. A limit bounds the steps.
//!
//! **Words are a parameter** (`Values` of `guest_arithmetic`, which also has arithmetic and conditions). `Plain` words
//! are numbers, and the machine is the processor. Other words may be marked: nothing is known of one, another is the
//! base of a thread's block, at an address that the linker is free to choose. A marked word may be moved, and must not
//! be used as a number. All uses of registers and flags come before any access, and uses of loaded words before any
//! store. A failed use makes the step `Unclean`, with the first cause if several fail. So one step serves twice: to
//! run an image, and to check that nothing a program does depends on what the linker chose.
//!
//! **Memory is a parameter** (`Space` of `guest_operands`): what may be fetched, loaded and stored where. Contracts
//! see it as ranges of bytes with rights, and promise that a run or an answer keeps whatever else it holds (its
//! `rest`). `guest_memory` has one in owned bytes.
//!
//! **The bytes that an instruction touches** are computed without a memory (`Machine::touches`): its accesses in their
//! order, at most two. `ff 53 08`, call *8(%rbx), loads eight bytes at %rbx + 8 and then stores eight below %rsp. An
//! access whose address is not a number is left out. The bytes touched are those of each access; the first refused
//! access is the last one, with all of its bytes (`touched` in `specs/Touch.antt`). A step accesses no other byte of a
//! memory (`laws::reaches_what_it_touches`).
//!
//! Two machines whose words and memories are related follow each other through every instruction and every run. These
//! laws are in `proofs/FollowRows.antt` (`act_follows`) and `proofs/Simulate.antt` (`same_run`, `through`), over any
//! two records of operations and accesses.
#![tactic(auto)]

mod compute;
mod execution;
mod jump;
pub mod laws;
mod machine;
mod moves;
mod run;
mod stack;
mod step;
mod touch;

pub use address_map::{DESCRIPTOR, GET_ADDRESS, RETURN};
pub use guest_operands::{Access, Registers, Size, Space, State, Stop};
pub use machine::Machine;
pub use run::is_look;
pub use step::act;
pub use touch::{Direction, Touch, Touches, touches_of};
