//! The global offset table of an image: which entries it has, their order, and their contents.
//!
//! Code that may be loaded anywhere, or that uses a variable of another image, cannot have every number in its
//! instructions: some are known only when all images are loaded. So it reads them from a table next to it, the
//! *global offset table*. The linker makes an entry for each number that code needs. It writes the numbers that it
//! knows; for each of the others it makes a *dynamic relocation*, by which the loader fills the entry.
//!
//! Thread-local storage needs five kinds of entry. A *pair* is the argument of `__tls_get_addr`: the id of a module
//! and an offset in its TLS segment. The pair of the module itself has offset 0. A *descriptor* is a function and its
//! argument, which give a variable's offset from the thread pointer. A *word* holds that offset itself, if the block
//! of the variable's module is at a fixed offset, or the address of a symbol, or that of `__tls_get_addr`.
//!
//! [`plan`] takes the needs of code, a [`Need`] for each place that reads the table, and lays the table out. The rule
//! that the crate keeps: **equal needs share an entry, and the order of entries depends only on the order of needs.**
//! The entries stand group by group (module pair, pairs, descriptors, offsets, addresses, the run time's function),
//! in each group by first need. [`GotPlan::start`] finds an entry by hash. That each need has an entry, that entries
//! differ and that groups are in order are laws of their own ([`laws`]).
//!
//! One table says what an entry holds ([`entry_of`], `specs/Entries`). A program is module 1 and knows where its
//! block begins, so its own entries are numbers; a module learns its id and its block's place when it is loaded. An
//! example: a program whose block begins 24 bytes below the thread pointer calls `__tls_get_addr` for its variable at
//! offset 8, and elsewhere reads that variable's offset from the thread pointer, 8 - 24 = -16.
//!
//! ```text
//! 00  01 00 00 00 00 00 00 00    the pair: module 1,
//! 08  08 00 00 00 00 00 00 00    offset 8
//! 10  f0 ff ff ff ff ff ff ff    -16
//! 18  00 00 00 00 00 00 00 00    R_X86_64_JUMP_SLOT __tls_get_addr
//! ```
//!
//! In a module the first word would be 0 with R_X86_64_DTPMOD64, and the third one 0 with R_X86_64_TPOFF64 and addend
//! 8. The entries are those of Drepper, "ELF Handling For Thread-Local Storage", sections 3 and 4, and of the psABI,
//! "Relocation Types".
#![tactic(auto)]

mod entry;
mod got_plan;
pub mod laws;
mod name;
mod need;

pub use entry::{DynamicKind, DynamicRelocation, DynamicSymbol, Entry, Word, entry_of};
pub use got_plan::{GotPlan, plan};
pub use name::Name;
pub use need::{Group, Need, Target};
