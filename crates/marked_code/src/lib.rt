//! Laws of one step of code with fields in it, in the meaning and in the machine. No code runs here.
//!
//! Outside its sequences, code is the object's code, except for its fields, whose four bytes a linker writes. The
//! meaning has numbers of its own for them (`whole_meaning`, `specs/Fields.antt`), and the machine reads what the
//! linker wrote. Code outside sequences has two kinds of field, both of the psABI, section "Relocation Types":
//!
//! ```text
//! 48 8d b8 .. .. .. ..    lea x@dtpoff(%rax), %rdi        DTPOFF32: an offset in a block
//! 48 8b 05 .. .. .. ..    mov f@gotpcrel(%rip), %rax      GOTPCREL: where a word is that holds f's address
//! ```
//!
//! The rule of the crate: **one clean step of the meaning is one step of the machine, from related registers, memories
//! and code**. For an offset field, the two numbers differ where the base differs, so that the sum, an address, is the
//! same.
//!
//! For an address field the two sides do different things. The machine loads eight bytes from a table, at 0x402ff0,
//! say. The meaning has no table: it uses the field's word as the operand, and lends it for this one step at address
//! 0, where nothing else is. So three more things are proved:
//!
//! - an instruction that reads such a word does the same with it at any address (`reads_follow`): `mov`, arithmetic
//!   such as `add`, `cmp`, `test`, `imul`, `call` and `jmp`;
//! - the meaning's address is 0: an operand relative to the next instruction has no index (`next_has_no_index`),
//!   since its spelling has no byte for one (Intel's manual, volume 2, "ModR/M and SIB Bytes");
//! - closing the linker's addresses to the meaning changes no step that touches none of them, with a lent word or
//!   without (`lent_open`, `proofs/Lent.antt`).
//!
//! **Both read the same instruction** (`proofs/Reading.antt`). If nothing hinders the meaning, each byte that it read
//! is the same on both sides, or lies in a field that the instruction takes as its displacement or its immediate.
//! Marks show which bytes lie in a field, and each has the field's first byte before it. So the machine reads that
//! instruction with its own number in it, and if the meaning reads none, the machine reads none.
//!
//! The laws hold for any values and memories, and any relation of memories that stores keep: the lemmas
//! `marked_follows` (`proofs/Step.antt`) and `read_follows` (`proofs/Rows.antt`). A clause can quantify only over
//! relations that a test decides, so [`laws`] state them for those, and for threads' memories.
#![tactic(auto)]

pub mod laws;
