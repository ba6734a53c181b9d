//! The symbols of an image that a loader sees: its dynamic symbol table, before it is written.
//!
//! An image that is loaded beside others has a second symbol table, the *dynamic* one. A loader reads no other. In it
//! other images find what this image defines, and the dynamic relocations of this image name what they take from others
//! (gABI, "Symbol Table" and "Dynamic Section"). This crate says which symbols the table has, in which order, and how
//! much room their names take. It writes nothing.
//!
//! The table has two parts.
//!
//! - **What the image defines**, [`defined_symbols`]: each name that some GLOBAL or WEAK symbol of the objects defines,
//!   once. The names are in the order of the first symbols that define them, by object and then by symbol number. The
//!   symbol of a name is the one that it binds to: the first GLOBAL definition, or the first WEAK one if there is no
//!   GLOBAL one. It may come later than the first symbol with that name.
//! - **What it imports**, [`imports`]: each name that a startup image defines and a sequence of thread-local storage
//!   uses, once. The names are in the order of the first sites that use them, by object and then in the order of the
//!   object's sites. A name that only the call of a descriptor uses counts too. Local dynamic code uses no name.
//!
//! The rule that the crate keeps: **each name appears once, and the order depends only on the order of objects, symbols
//! and sites.** So the same objects give the same table.
//!
//! An example. Two objects are linked as a program beside a module that defines `errno` and `y`:
//!
//! ```text
//! a.o   1 w  WEAK, .tdata         defined: w (b.o's symbol 2, which is GLOBAL), then f, then z
//!       2 f  GLOBAL, .text        imported: y, then errno
//!       sites: y, w, errno
//! b.o   1 z  GLOBAL, .tdata
//!       2 w  GLOBAL, .tdata
//!       sites: errno
//! ```
//!
//! Each name takes a symbol table entry of 24 bytes, its own bytes, and a zero after them ([`name_size`]). The names of
//! an image may take [`NAME_LIMIT`] bytes; [`names_fit`] tests that.
//!
//! Names are found by hash. Each site is read once, and none of an object that has no symbol of a startup image.
//! `specs/Names` defines the two lists step by step. `specs/Laws` has what is proved of every such list: its symbols are
//! in the objects, its names are distinct, and no import is defined here or is `__tls_get_addr`. `specs/Found` is about
//! what the walks look for and keep: names, and their symbols.
#![tactic(auto)]

mod defining;
mod importing;
pub mod laws;
mod sizes;

pub use defining::defined_symbols;
pub use importing::imports;
pub use sizes::{NAME_LIMIT, name_size, names_fit};
