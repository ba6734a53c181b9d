//! What a loader makes of the images of a job: where each lies, its words, and the TLS block of each thread.
//!
//! A linker cannot know where an image will lie, nor its module id. It leaves *relocations*: places in the image at
//! which the loader writes a word when it knows. This crate does the loader's part for a job whose images are linked.
//! An [`Instance`] is one load of an image: its number, its module id, and how far below the thread pointer its
//! blocks begin, if that is fixed. [`Modules`] keeps the images, and returns what each instance looks like: where it
//! lies, the bytes of its parts, and the block that each thread begins with.
//!
//! The rule that it keeps: **the bytes of an instance depend only on the images and the instance**. Nothing is
//! loaded, kept or copied: the parts stay as the files have them, and a read puts the loader's words into the bytes
//! it returns. It finds them by a binary search among relocations, whose places rise. `Modules::new` looks up each
//! name once, by its hash, in time linear in the symbols; no later call allocates memory. A relocation writes, modulo
//! 2^64 and the lowest byte first (psABI, "Relocation Types"; Drepper, "ELF Handling For Thread-Local Storage"):
//!
//! ```text
//! JUMP_SLOT   where the run time's function is called, 0x1000
//! RELATIVE    the addend, as far up as the instance is moved
//! DTPMOD64    the module id: of this instance, or of the image that shares the symbol
//! DTPOFF64    the symbol's offset there
//! TPOFF64     such an offset, less how far below the thread pointer the block begins
//! TLSDESC     two words: where the descriptor's function is called, 0x1800, and id * 2^32 + offset
//! ```
//!
//! A name is looked up in the images that start with the program, the program first; hidden symbols and symbols of late
//! images are not found. The module id of an image that starts with the program is its number.
//!
//! For example, a module's GOT at 0x2000 has four words. It is loaded as instance 5 with module id 2, so it is moved by
//! 2^32 + 5 * 2^26 = 0x1_1400_0000; the program shares `total`, 4 bytes into its blocks:
//!
//! ```text
//!                        in the file               at 0x1_1400_2000 and up
//! DTPMOD64, no symbol    00 00 00 00 00 00 00 00   02 00 00 00 00 00 00 00
//! RELATIVE + 0x1010      00 00 00 00 00 00 00 00   10 10 00 14 01 00 00 00
//! DTPMOD64 total         00 00 00 00 00 00 00 00   01 00 00 00 00 00 00 00
//! DTPOFF64 total         00 00 00 00 00 00 00 00   04 00 00 00 00 00 00 00
//! ```
//!
//! A block is the initial image of the TLS segment with such words in it, and zeros up to the segment's size
//! (gABI, "Program Loading"). `specs/Images` and `specs/Loader` define all of this; `specs/Given` says when
//! images are those of a job.
#![tactic(auto)]

mod blocks;
mod exports;
mod infos;
mod instance;
pub mod laws;
mod modules;
mod parts;
mod relocating;
mod searches;

pub use exports::Export;
pub use instance::Instance;
pub use modules::Modules;
