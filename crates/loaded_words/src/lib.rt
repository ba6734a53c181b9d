//! Laws of the words in a loaded instance's global offset table. No code runs here.
//!
//! Code that is not rewritten reaches thread-local storage through entries of the table (`got_pairs`). In the file an
//! entry has the numbers that the linker knows, and relocations for the others (`link_core`); a loader writes these
//! (`loaded_modules`). Whether the linker or the loader fills a word depends on the kind of image and on where the
//! variable is. The loaded word does not.
//!
//! The rule of the crate: **one table, with a line for each kind of entry, says which words it holds** (`specs/Words`;
//! Drepper, "ELF Handling For Thread-Local Storage", sections 3 and 4).
//!
//! ```text
//! pair                   the module's id, the variable's offset in each of its blocks
//! descriptor             0x1800, id * 2^32 + offset
//! distance               the offset less how far below the thread pointer the block begins, modulo 2^64
//! address                the symbol's address, moved as far as the instance
//! the run time's word    0x1000
//! ```
//!
//! A variable of the image has the instance's own id and distance; one that it imports has those of the first startup
//! image that exports the name (`loaded_names`' `imports_are_found` says which image that is). This holds in a program
//! at a fixed address, where no relocation writes a pair of its own variables, and in a module, where DTPMOD64 does
//! ([`words_are_loaded`]). So the numbers that a linker writes for a program have to be those that its loading gives:
//! in each history of a job the program's instance is 1, its id is 1, and its blocks begin right below the thread
//! pointer ([`instances_are_placed`]).
//!
//! For example, instance 5 of a module has the id 3 and the load bias 0x1_1400_0000. A pair of its variable at offset
//! 0x10, a descriptor of the same, and the address of a symbol at 0x2040 are
//!
//! ```text
//! in the file            0, 0x10                 0, 0                      0x2040
//! loaded                 3, 0x10                 0x1800, 0x3_0000_0010     0x1_1400_2040
//! ```
//!
//! The run time finds both words of a pair or of a descriptor in a table of the instance ([`tables_hold`]), and the
//! stub is run as one instruction, a jump through the run time's word ([`stub_is_loaded`]).
#![tactic(auto)]

mod laws;

pub use laws::{instances_are_placed, stub_is_loaded, tables_hold, words_are_loaded};
