//! An image, a program or a module that a linker wrote, read from its file.
//!
//! [`read`] takes the bytes of a file and returns an [`Image`], or the first fault of the file (`image_faults`). An
//! image lends what a loader needs: the *parts* to load, with their addresses; which of them only the loader writes
//! (the GOT); the *TLS segment*, from which each thread's block is made; the *symbols* that it defines or imports;
//! and the *relocations* that are left to the loader.
//!
//! The rule that it keeps: **an image is what the bytes of a file spell** (`specs/Spelled`). Bytes that no loader
//! reads, such as the order of chains in the hash table, do not matter. No call but `read` allocates memory, and
//! `read` allocates as many bytes as the file has.
//!
//! For example, the image of `image_faults`' essay is a program ([`FileKind::Exe`]) of three parts, the first
//! executable, 9 bytes at 0x400000; its TLS segment has 4 bytes; its symbols 1 and 2 are `f`, a function at
//! 0x400000, and `x`, thread-local at offset 0. It has no GOT and no relocations.
//!
//! The crate `image_writer` writes an image, or makes one of what a linker laid out.
#![tactic(auto)]

mod image;
mod lent;
mod part;
mod relocation;
mod symbol;

pub use elf_records::{SymbolBinding, SymbolType, Visibility};
pub use image::{Image, image_is_spelled, images_cross_threads, read, read_owned};
pub use image_faults::{FaultKind, FileKind, ImageFault, LoaderKind};
pub use part::{ImagePart, PartClass, TlsPart};
pub use relocation::ImageRelocation;
pub use symbol::ImageSymbol;
