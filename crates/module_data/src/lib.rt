//! The data of instances: the variables that are not thread-local, one copy for all threads.
//!
//! A linker lays out the variables of an image in two places. Thread-local ones (`.tdata`, `.tbss`) form a template,
//! from which each thread gets a block of its own. All others (`.data`) lie in a writable segment of the image, and
//! every thread reads and writes the same bytes there (gABI, "Program Loading": a PT_LOAD with PF_W). This crate
//! keeps the second kind for a job whose images are loaded and closed while threads run.
//!
//! Not every writable part is data: the one that GNU_RELRO covers, the GOT, is written only by the loader, before any
//! code runs. The *data part* of an image is its first writable part that is not the GOT ([`data_part`]). An image
//! has at most one; an image without it has no bytes here, and [`Data::start`] says so.
//!
//! The rule that it keeps: **a byte that is read is the one that was last written there, by any thread, and else the
//! one that the loader left.** An instance, one load of an image, begins with the bytes of its data part as the
//! loader leaves them, with the words of relocations (psABI, "Relocation Types"). A close keeps nothing: the next
//! load of the image is another instance, and begins with fresh bytes.
//!
//! For example, late image number 2 has 16 bytes of data at 0x2000: a pointer to its counter (RELATIVE, addend
//! 0x2008), and the counter, 40. It is opened as instance 2, moved by 2^32 + 2 * 2^26 = 0x1_0800_0000, so its data
//! start at 0x1_0800_2000. Two threads add 1 to the counter; then it is closed, and opened as instance 3:
//!
//! ```text
//! in the file          00 00 00 00 00 00 00 00  28 00 00 00 00 00 00 00
//! opened, instance 2   08 20 00 08 01 00 00 00  28 00 00 00 00 00 00 00
//! thread 1 adds 1      08 20 00 08 01 00 00 00  29 00 00 00 00 00 00 00
//! thread 2 adds 1      08 20 00 08 01 00 00 00  2a 00 00 00 00 00 00 00
//! opened, instance 3   08 20 00 0c 01 00 00 00  28 00 00 00 00 00 00 00
//! ```
//!
//! [`Data`] holds one piece for each image, under the image's number: the instance to which the bytes belong, and the
//! bytes. A question costs one look-up, and names image and instance: code that still runs in a closed instance does
//! not find the bytes of another. Only [`Data::new`] and [`Data::load`] allocate memory, as much as the parts have
//! bytes. `specs/Parts` says which part is data and how an instance begins, `specs/Pieces` what a load does,
//! `specs/Lending` what a write does; [`laws`] states the rule for any sequence of writes.
#![tactic(auto)]

mod data;
mod fresh;
pub mod laws;
mod part;
mod piece;

pub use data::Data;
pub use part::data_part;
