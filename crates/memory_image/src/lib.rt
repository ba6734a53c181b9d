//! What the meaning of a job loads of an image's sections, made ready.
//!
//! The meaning of a job knows no image file. An instance of an image is its objects' sections, each at its address,
//! with the fields of its relocations filled in. The definitions say which section contains an address, and which field
//! covers a byte. Asked for each byte that a job reads, that is a walk over all sections and relocations. Here the
//! bytes of a class (code, constants, the initial image of thread-local storage, data) are made once, in one walk, and
//! then read from a table.
//!
//! The rule that the crate keeps: **a table is the definition, address by address**, from the first address of the
//! class to the last. [`lay`] makes a table of any cells: those of each section at its address, and gaps where there is
//! no section. For the bytes themselves there are two tables, [`MemoryImage`]: the byte before the image is moved, and a
//! mark.
//!
//! An image that is loaded is moved, each instance by a distance that its number gives. What a field holds then depends
//! on its type (psABI, "Relocation Types"; S is the symbol's address, A the addend, P the address of the field):
//!
//! ```text
//! R_X86_64_64                  S + A        moves with the image: marked 1 to 8, byte by byte
//! R_X86_64_PC32, PLT32         S + A - P    S and P move alike: stays
//! R_X86_64_TPOFF32             O + A - B    no address is in it: stays
//! R_X86_64_32, 32S             S + A        does not fit once the image is moved, so it is refused in such an image
//! ```
//!
//! A byte of an address is byte k of the eight, read as a number, with the distance added modulo 2^64. For example, the
//! address 0x1008 of an instance that is moved by 2^32 is stored as `08 10 00 00 01 00 00 00`. The table has `08 10 00
//! 00 00 00 00 00` and the marks 1 to 8.
//!
//! The tables rely on `Keeps` of `specs/Tables`: the fields that are not marked hold the same at this distance.
//! [`laws`] says that the fields of each instance do, if the objects can be linked.
#![tactic(auto)]

mod fields;
pub mod laws;
mod laying;
mod memory_image;
mod ranges;
mod writable_range;

pub use fields::Table;
pub use laying::{Cells, lay};
pub use memory_image::MemoryImage;
pub use ranges::{StillBytes, block_of};
pub use writable_range::WritableRange;
