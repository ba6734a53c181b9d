//! The words of linking: kinds of fault, kinds of image, parts of an image, and what a symbol is bound to.
//!
//! Each object may be sound and still the objects do not link: a name has no definition, thread-local storage is
//! larger than a thread's block may be, or an instruction of a module needs an offset that only a program has. Such a
//! fault has a
//! **kind** and a place: the object, its section, and the relocation or symbol there. A fault of the image as a whole
//! is at no object, and both numbers are 0.
//!
//! The rule that all crates of linking keep: **the kinds are checked in one order, and the first object, section and
//! entry of a kind is reported.** The order is that of [`LinkFaultKind`], except that `Overflow`, which needs the
//! addresses of everything, comes last. So a user gets one fault, and always the same one.
//!
//! ```text
//! kind Undefined, object 0, section 1, entry 3    relocation 3 of section 1 of the first object names what nothing defines
//! kind TlsTooLarge, no object, 0, 0               the thread-local storage of all objects together
//! ```
//!
//! An image is linked as an [`ImageKind`]: the program, at a fixed address or at any, or a module, which a program
//! loads. The kind decides where the image begins and which access models it may use (Drepper, "ELF Handling For
//! Thread-Local Storage", section 4). In memory it consists of [`Part`]s, bytes at an address each. A [`SymbolRef`]
//! is a symbol of one of its objects, and a [`Place`] that of a relocation or a symbol in a fault. A relocation's symbol is bound to such a symbol, to the symbol of that name in
//! an image that is loaded with it, or to the run time's function: its [`Binding`].
//!
//! The crate has no rules of its own beyond these words, so that each crate of linking can use them
//! without using another.
#![tactic(auto)]

mod binding;
mod fault;
mod image_kind;
mod part;
mod place;
mod symbol_ref;

pub use binding::Binding;
pub use fault::{LinkFault, LinkFaultKind};
pub use image_kind::{EXE_BASE, ImageKind};
pub use part::Part;
pub use place::Place;
pub use symbol_ref::SymbolRef;
