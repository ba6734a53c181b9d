//! The tables that tie an image to others, and what must hold of objects before a byte of it is written.
//!
//! An image that others use, or that uses others, has two tables besides its bytes. The *dynamic symbols* are the names
//! that it defines for others and the names that it takes from them. The *dynamic relocations* say what only a loader
//! can know: where the image is, which number its module got, how far below the thread pointer a block begins. Both
//! depend only on the objects, so this crate defines them (`specs/Dynamic`) without a word of how bytes are written.
//!
//! **Order.** The symbols, from number 1 on: those that the image defines, object by object; the names that it imports,
//! in the order in which sequences ask for them; last `__tls_get_addr`, if it is called through its word. The
//! relocations are in the order of their places: first the fields of 8 bytes that hold an address, if the image may be
//! loaded at any address, then the words of the global offset table, which comes after all sections.
//!
//! **What must hold first** (`specs/Faults`, `IsSound`): names are bound, the image's kind allows each relocation, its
//! sections, relocations and names are within the limits, and code that asks for thread-local storage finds some. The
//! first fault of these is reported. A field that can't hold its value is reported last, since that depends on every
//! address.
//!
//! For example, a module that reads `x` of another image with the initial exec sequence has one import and one word:
//!
//! ```text
//! symbols        1  x                GLOBAL TLS, undefined
//! relocations    402000  TPOFF64     symbol 1, addend 0       the word holds x's distance from the thread pointer
//! ```
//!
//! A [`Tables`] is a link whose offset table is laid out, with the names of its dynamic tables. [`symbols`] and
//! [`relocations`] return the rows of the tables. `link_core` asks the questions, in their order. Names are compared by
//! hash. Time is linear in objects, symbols and relocations, except that the relocations of fields are sorted by their
//! places.
//!
//! The tables are those of the gABI ("Symbol Table", "Relocation") and of the psABI ("Relocation Types").
#![tactic(auto)]

mod relocation_list;
mod symbol_list;
mod tables;

pub use relocation_list::relocations;
pub use symbol_list::symbols;
pub use tables::Tables;
