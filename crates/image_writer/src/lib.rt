//! The bytes of an image's file: writes an image that was read, and frames the parts that a linker has laid out.
//!
//! A loader reads a file from its first bytes: a header, and *program headers*, one for each part to load, one for
//! the dynamic array, one for the TLS segment and one for the part that only the loader writes. Here they fill the
//! first page of 4,096 bytes, with zeros after them. Each part stands where its address says: the byte of address `a`
//! is at offset `a` + 4,096 - the base of the image ([`file_offset`]). The base is 0x400000 in a program at fixed
//! addresses, else 0. The last part holds the *dynamic tables*: the array, the hash table, the symbols, the
//! relocations and the names.
//!
//! The rule that it keeps: **reading what was written gives what it was made of.**
//! - [`write`] appends the file of an [`Image`](image_file::Image), and that file is read as this very image. It
//!   requires that the TLS segment begins no further than the last part ends, as [`holds_tls`] tests.
//! - [`into_file`] makes that file from the image's own bytes, and takes the image. The parts are at their offsets
//!   already; it puts headers and the zeros between parts around them.
//! - [`frame_of`] makes of a [`Draft`], which is all that a linker knows of an image except the tables, what the file
//!   has before and behind the bytes of the parts: the page of headers, and the tables. So a file is made piece by
//!   piece, with no buffer of its size. [`laws`] say that the parts in their frame are the very file that `write` makes
//!   of the image, and that it is read as that image, which has the draft's parts, symbols, names and relocations.
//!   `specs/Linkable` says what they require of the draft.
//!
//! Memory is allocated first and at once. If it runs out, `write` leaves its output as it was. `write` copies parts
//! once, `into_file` copies none, and `frame_of` reads none.
//!
//! For example, a module that defines one symbol, `x`, thread-local at offset 8, has these tables at address 0x1000,
//!
//! ```text
//! 1000  04 60 10 · 05 a8 10 · 06 78 10 · 0a 03 · 0b 18 · 00 00    HASH STRTAB SYMTAB STRSZ SYMENT NULL, 16 bytes each
//! 1060  01 00 00 00  02 00 00 00  01 00 00 00  00 00 00 00  00 00 00 00       one bucket, two symbols: symbol 1, end
//! 1074  00 00 00 00                                                           up to a multiple of 8
//! 1078  24 zeros                                                              symbol 0
//! 1090  01 00 00 00  16 00  01 00  08 00 .. 00  04 00 .. 00                   GLOBAL, TLS, defined, at 8, of 4 bytes
//! 10a8  00 78 00                                                              the names: none, and `x`
//! ```
//!
//! and its program headers are the LOADs of its parts, `DYNAMIC offset 0x2000 vaddr 0x1000 filesz 96` and that of its
//! TLS segment.
//!
//! The format is that of the System V ABI (gABI, "Program Loading and Dynamic Linking", "Hash Table"), of its
//! supplement for x86-64 (psABI) and of "ELF Handling For Thread-Local Storage". `specs/Page`, `specs/Tables` and
//! `specs/Written` have the bytes.
#![tactic(auto)]

mod draft;
mod entries;
mod frame;
pub mod laws;
mod layout;
mod outline;
mod page;
mod put;
mod tables;
mod written;

pub use draft::{Draft, NamedSymbol};
pub use frame::{Frame, frame_of};
pub use outline::{Outline, PartPlace};
pub use page::file_offset;
pub use written::{holds_tls, into_file, write};
