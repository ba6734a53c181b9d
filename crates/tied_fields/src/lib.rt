//! Laws of a linked image's code outside sequences: marked fields, and all other bytes. No code runs here.
//!
//! A job's meaning runs the code of its objects, and marks in it what only a linker knows (`whole_meaning`): offset
//! fields (`x@dtpoff`), address fields (`f@gotpcrel(%rip)`), and sequences that reach thread-local storage. Its
//! machine runs the bytes that the linker wrote and the loader relocated (`loaded_bytes`). This crate ties the two at
//! each address outside sequences, and says which numbers the machine has for the meaning's tokens.
//!
//! The rule of the crate: **an unmarked address has the objects' own byte; a field holds, modulo 2^64, a number that
//! moves the machine's base, or leads to the machine's entry, as the mark's number does for the meaning**. A field of
//! four bytes is read as the signed number that was stored in it (psABI, "Relocation Types").
//!
//! Take a program with 8 bytes of thread-local storage, x at offset 4, at 0x400000, whose table has the address of `f`
//! at 0x402000. Local Dynamic code that is rewritten finds the thread pointer in place of the block's first byte ("ELF
//! Handling For Thread-Local Storage", section 5):
//!
//! ```text
//!                                    the mark           kept            rewritten
//! mov x@dtpoff(%rax), %eax           Offset 4           04 00 00 00     fc ff ff ff
//!   base + field, modulo 2^64        block + 4          block + 4       (block + 8) - 4
//! call *f@gotpcrel(%rip) at 0x400010 Address f, -4      ea 1f 00 00     ea 1f 00 00
//!   0x400016 + field                                    0x402000        0x402000, the word f
//! ```
//!
//! - `specs/Settings.antt`: the numbers that a linker chose, as one record of a job's links and its history
//!   (`setting_of`). The base of the program's blocks is the thread pointer if its Local Dynamic code is rewritten. A
//!   descriptor's number is the address of its entry, or, if the sequence that makes it is rewritten, the variable's
//!   distance from the thread pointer. The first sequence of the image that makes a symbol's descriptor decides;
//! - `specs/Laws.antt`: what is tied of an instance; `specs/Jobs.antt`: of a job.
//!
//! The laws for any instance of an image that links:
//!
//! - each address outside the room has the marked byte: the same byte, or some byte of a field or a sequence
//!   ([`code_is_tied`]), and in the room the meaning has no code ([`rooms_have_no_code`]);
//! - a byte of a field has the field's first byte before it, with the same mark ([`fields_have_their_beginning`]): no
//!   field lies across the edge of a sequence.
//!
//! And for one that has a number in a legal history of a job whose program is its first image:
//!
//! - an offset field moves the base of each thread's block to one address in both ([`offset_fields_are_tied`]);
//! - all that is loaded of it, on both sides, lies at addresses with its number in them, and no instruction runs on
//!   from its code into what the linker added ([`places_are_tied`]);
//! - an address field leads to a word with the mark's number ([`address_fields_are_tied`]);
//! - all sequences of an image that make a symbol's descriptor, or call it, have one number for it
//!   ([`descriptors_have_one_number`]): their symbol has one definition, so they name one variable and one entry, and
//!   are kept or rewritten together.
//!
//! `loaded_bytes` and `loaded_names` have the laws of constants, data, blocks and names. Together, an instance is tied
//! as `tied_meaning` defines it, except for its sequences ([`instances_are_tied`]). If these are right in all
//! instances, the whole job is tied ([`jobs_are_tied`]).
//!
//! The proofs begin with what a mark implies (`proofs/Marks`): a relocation whose field has the byte, and no sequence.
//! Such a relocation has its field in the file, whole, and a symbol of the image (`proofs/Fields`). Then each law is a
//! sum (`proofs/Numbers`).
#![tactic(auto)]

mod laws;

pub use laws::{
    address_fields_are_tied, code_is_tied, descriptors_have_one_number,
    fields_have_their_beginning, instances_are_tied, offset_fields_are_tied, places_are_tied,
    rooms_have_no_code,
};
