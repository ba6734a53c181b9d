//! The images of a job: fetches, reads and links their objects.
//!
//! A job names its images, and for each image the object files to link. Four steps lead from that text to images that
//! can run. This crate defines their order:
//!
//! 1. [`fetch_objects`] asks a store for each object file, and keeps the bytes of all of them. Threads read side by
//!    side.
//! 2. [`read_objects`] reads the objects of each image, and finds the TLS code sequences. Threads read side by side;
//!    the results are taken in order. If threads will run at once, an object with data that programs write is refused
//!    ([`WritableSections`]).
//! 3. [`prepare_images`] makes each image ready, given the names that the startup images export
//!    ([`startup_exports`]): the program, and the modules that start with it. Or it returns the first image that does
//!    not link. No byte of any image is laid.
//! 4. [`write_images`] writes all of them, and threads share the work on a large one. A caller that wants one image
//!    writes only that; a checker takes what the objects mean ([`inputs_of`]), and needs no file.
//!
//! Two orders meet here. The job's lines **mention** images in any order; in **image order** the program is first, then
//! come the modules that start with it, then the late ones. Files are fetched and read in the order of mentions, so
//! that a user is told of the first wrong line; images are linked in image order, in which the loader numbers them.
//!
//! The rule that the crate keeps: **each file is fetched once, and each step does what the job says or names the
//! first thing that stops it.** A step takes its things in one order and reports the first that fails: everything
//! before it is sound, and nothing is said of what comes after it, though other objects of the same image may have
//! been read. Memory may run out in any step, a fault of which nothing more is said.
//!
//! Take a job whose two images share an object:
//!
//! ```text
//! image plug late plugin.o shared.o
//! image app exe main.o shared.o
//! ```
//!
//! | step | order |
//! |---|---|
//! | fetched | `plugin.o`, `shared.o`, `main.o`: `shared.o` is asked for once, where it is first mentioned |
//! | read | `plugin.o` and `shared.o` for `plug`, then `main.o` and `shared.o` for `app`, over the same bytes |
//! | linked | `app`, then `plug`, each beside what `app` exports, since a late image exports nothing to others |
//!
//! If the store has no `shared.o`, it is asked only for `plugin.o` and `shared.o`. If `shared.o` and `main.o` both
//! have faults, `shared.o` is reported, which the first line mentions, with its first fault in the order of
//! `elf_object`; the faults of its sequences come last. If `shared.o` is an object with 4 bytes in its section 3,
//! `.data`, and such data is refused, then section 3 is reported, before any search for sequences. If neither image
//! links, `app` is reported, number 0 in image order.
//!
//! `specs/` has the steps as definitions: the names that a job mentions and their files (`Mentions`), what an image is
//! linked from and the first file that is refused (`Given`), and the links and the first image that does not link
//! (`Linked`). Sequences, exports and links are those of the crates below.
#![tactic(auto)]

mod fetching;
mod images;
mod preparing;
mod reading;
mod writable;

pub use fetching::{Files, fetch_objects};
pub use images::ImageObjects;
pub use preparing::{ImageRefusal, inputs_of, prepare_images, startup_exports, write_images};
pub use reading::{ReadRefusal, read_objects};
pub use writable::WritableSections;
