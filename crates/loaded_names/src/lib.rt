//! Laws of names and blocks in a loaded image: they are those of its objects. No code runs here.
//!
//! A linker writes a table of symbols into each image (gABI, "Symbol Table"), and describes its thread-local storage
//! by a segment (gABI, "Program Header", PT_TLS) and a flag (gABI, "Dynamic Section", DF_STATIC_TLS). A loader looks
//! up a name, and finds the size of a block, by these alone. Objects have no such tables: of several definitions of a
//! name, the rules of symbol binding choose one.
//!
//! The rule of the crate: **what is read back is what was meant**. A name has a function if its definition lies in
//! code, at that address plus the load bias ([`functions_are_loaded`]). It has a variable if its definition is
//! thread-local, at the same offset in each block as in the TLS segment ([`variables_are_loaded`]). Sizes and
//! alignments of blocks, and whether an image needs its blocks at a fixed distance from the thread pointer, are those
//! of its sections and of its sequences ([`infos_are_loaded`]). A name that an image takes from others is found where
//! the linker bound it: in the first startup image that exports it, by its definition there ([`imports_are_found`]).
//!
//! For example, an object of a module defines `count` twelve bytes into the executable class, which begins at 0x0. The
//! image has `count` with the value 0xc; in instance 5, with load bias 0x1_1400_0000, it is called at 0x1_1400_000c.
//!
//! The proof compares two lists. A symbol of the image is found as the first with its name (`proofs/First`), and the
//! image lists each definition of its objects once, before all names that it takes from others (`proofs/Defined`,
//! `proofs/Named`). The linker adds code too, the stub; but it lies after the table, whose page no section reaches, so
//! no symbol names it (`proofs/Runs`). Of several symbols with a name an image exports the name's definition or none
//! (`proofs/Exports`), and late images, which export nothing, come last (`proofs/Imports`).
#![tactic(auto)]

mod laws;

pub use laws::{
    functions_are_loaded, functions_are_meant, imports_are_found, infos_are_loaded,
    infos_are_meant, variables_are_loaded, variables_are_meant,
};
