//! The file of an image's sections: in which order they stand, at which offsets, and what any file laid so holds.
//!
//! A linker puts the sections of many objects into one file, and a loader maps that file into memory a page of
//! 4,096 bytes at a time. A page of memory is a page of the file, so a byte has the same offset in its page in
//! both: the offset and the address of a segment are congruent (gABI, "Program Header", `p_align`). `tls_layout`
//! finds the address of each section before a byte is written. What is left is where each stands in
//! the file, which has the same order and the same gaps.
//!
//! The rule that the crate states: **each byte of a section is at its place, and all others are zero.** The first page
//! is that of the headers, which another crate writes, so the byte of address `a` is at offset `a` + 4,096 - the base
//! of the image ([`offset_of`]): 0x400000 in a program at fixed addresses, else 0. Sections that have no bytes in
//! their objects (`SHT_NOBITS`: `.bss`) stand here with as many bytes as they have in memory, so the file holds
//! everything that a loader maps. Thread-local ones of this type have no address, and take no bytes here.
//!
//! An example: a program of two objects, with sections written as type, size and alignment.
//!
//! ```text
//!                         address    offset
//!                                    0x0000    a page of zeros, for the headers
//! a.o .text   17, 16      0x400000   0x1000    17 bytes, and 15 zeros up to a multiple of 16
//! b.o .text    9, 16      0x400020   0x1020    9 bytes, and zeros up to the next page
//! a.o .tdata  20,  8      0x401000   0x2000    20 bytes, and 4 zeros up to a multiple of 8
//! b.o .tdata   1,  8      0x401018   0x2018    1 byte, and zeros up to the next page
//! a.o .data    4,  4      0x402000   0x3000    4 bytes, and 4 zeros up to a multiple of 8
//! b.o .bss     8,  8      0x402008   0x3008    8 zeros
//! end of the file         0x402010   0x3010
//! ```
//!
//! A class may end after the last byte of its sections: a section of no bytes moves the end up to a multiple of its
//! alignment. The file then has zeros up to there, so that a segment's bytes are all in the file.
//!
//! What stands in a section is left open: any bytes, as many as it has in memory. `link_core` asks [`place_sections`]
//! for the sections that have an address and bytes, in the order of the file, each with its offset; among them stands
//! where a class ends. Then it links each section by itself. The list is made in five walks over the sections: for
//! code, constants, the initial image of thread-local storage, and data with bytes and without. No byte of a section is
//! read for it.
//!
//! [`laws`] states what the file holds, offset by offset: where it ends, that each section lies in it with what stands
//! in it, and that zeros stand between them. `specs/Files` has the order of sections, and the file of any contents;
//! `specs/Laws` has the laws, and what callers may rely on in a placed part (`IsNear`).
#![tactic(auto)]

pub mod laws;
mod part;
mod placing;

pub use part::{PlacedPart, SectionRef};
pub use placing::{offset_of, place_sections};
