//! Laws of the bytes of a loaded instance, by its image's objects alone. No code runs here.
//!
//! A linker lays sections into a file and fills in their fields (`link_core`); a loader relocates the image and writes
//! words over it (`loaded_modules`, `relocated_parts`). To run the image one needs neither story, but one answer:
//! which byte is at this address? This crate answers by the image's objects alone.
//!
//! The rule of the crate: **each byte of a section that linking keeps is the section's own, or one of the relocated
//! field there, at the instance's address, or one of the sequence that replaced another; between sections there are
//! zeros**. The types of relocations say what a field holds (psABI, "Relocation Types"). Only one of them depends on
//! the instance's address, since S and P move together:
//!
//! ```text
//! R_X86_64_64      S + A + how far the instance is moved, modulo 2^64
//! any other        what it holds in the file
//! ```
//!
//! This holds in code ([`code_is_loaded`]), in constants and in the TLS initial image ([`constants_are_loaded`]), in
//! data that threads write ([`data_is_loaded`]), and in the block that each thread begins with, which is the initial
//! image as the instance has it ([`blocks_are_loaded`]). These laws are about addresses; a section's bytes lie one
//! after another from its address on ([`sections_stand`]).
//!
//! Between sections are zeros. All that a linker adds to the sections, its table, the stub and the dynamic tables,
//! lies in the room after them ([`all_else_is_in_the_room`]). What can be run there begins a page later, so no
//! instruction of the objects runs on into it ([`none_runs_on`]). Each instance has 2^26 addresses of its own, so two
//! of them lie apart, unless both are programs at fixed addresses ([`places_are_own`], [`instances_lie_apart`]).
//!
//! Outside code such a byte is the one of the job's meaning ([`bytes_are_meant`]). So what is read of constants, the
//! data and the fresh blocks are those of the meaning ([`reads_are_meant`], [`data_is_meant`], [`blocks_are_meant`]).
//! If objects are lists of bytes, each of these is below 256 ([`bytes_are_small`]).
//!
//! For example, an object of a module has the constant `.quad after+8`, and `after` lies at 0x2040. In the file the
//! field holds 0x2048, and a RELATIVE relocation names its address. In instance 5, with load bias 0x1_1400_0000, it
//! reads as 0x1_1400_2048.
//!
//! The proof goes by address. The laws of `link_core` say which byte of the file is at an address of a class: a
//! section's, or a zero between sections (`proofs/ClassFile`). A relocation that writes there is one of a field of 8
//! bytes in the section there, and each such field has one, so the number written and the number meant are the same
//! (`proofs/LeftBytes`).
#![tactic(auto)]

mod laws;

pub use laws::{
    all_else_is_in_the_room, blocks_are_loaded, blocks_are_meant, bytes_are_meant, bytes_are_small,
    code_is_loaded, constants_are_loaded, data_is_loaded, data_is_meant, instances_lie_apart,
    none_runs_on, places_are_own, reads_are_meant, sections_stand,
};
