//! What names stand for.
//!
//! A relocation names a symbol, and a symbol that is not LOCAL is only a name. Code of one object reads `x`; another
//! object defines it, or another image does that the program loads. For each name that is used a linker has to find the
//! one thing that it stands for, and to report a name that stands for nothing or for two things. This crate does that
//! for one image (gABI, "Symbol Table"; Drepper, "ELF Handling For Thread-Local Storage", section 4, for what may be in
//! another image).
//!
//! The rule of names, in the order in which it is asked:
//!
//! 1. A LOCAL symbol stands for itself. The rest of this list is about GLOBAL and WEAK ones.
//! 2. `__tls_get_addr` is the run time's function, [`Binding::Runtime`]. No object may define it.
//! 3. A name binds to its first GLOBAL definition, in the order of objects and then of symbols, or to its first WEAK
//!    one if there is no GLOBAL one: [`Binding::Here`].
//! 4. Else, for the four types of relocation that allow another image's variable (TLSGD, GOTTPOFF, GOTPC32_TLSDESC,
//!    TLSDESC_CALL), it binds to the first startup image that exports the name: [`Binding::Startup`]. An image exports
//!    the names whose definitions in it are thread-local and of default or protected visibility.
//!
//! An example. b.o is linked as a module of a program that exports `x` and `errno`.
//!
//! ```text
//! b.o   x  GLOBAL, .tdata         TLSGD of x          here: object 0, the symbol of x
//!       errno  undefined          TLSGD of errno      startup image 1, the program
//!                                 TPOFF32 of errno    Undefined: the type allows no other image's variable
//!       __tls_get_addr undefined  PLT32               the run time
//! ```
//!
//! [`exports`] lists what an image exports. [`resolve`] binds its names, or returns the first fault. First comes
//! `Undefined`, a name that a relocation uses and that nothing defines; then `Duplicate`, a second GLOBAL definition,
//! used or not; then `NotTls`, a relocation of thread-local storage whose name binds to something else, or the other
//! way round. Within a kind the first object, section and entry counts. The resulting [`Bindings`] answer what a symbol
//! is bound to, and which definition a name or a symbol has in the image. What a symbol is bound to depends on whether
//! it may be another image's variable ([`Imports`]), and on nothing else in a relocation.
//!
//! [`first_use`] finds the first relocation that a [`Question`] is about, by object, section and entry. The question is
//! first asked about an object, by what was noted of its relocations when it was read: they are walked only where it
//! may be about one of them.
//!
//! The rule of cost: **a name is read and hashed once, and is a number from then on.** Names are numbered in the order
//! in which they are met. Each symbol keeps the number of its name and whether it is thread-local. Tables by these
//! numbers hold the first GLOBAL and the first WEAK definition and the first startup image. So a few look-ups in lists
//! bind a relocation, however many names there are. LOCAL names are not read. A fault depends on a symbol and on the
//! role in which relocations name it, and an object has noted these roles. So faults are looked for among symbols, and
//! relocations are walked only in an object that has one. For what an image exports, names of thread-local symbols
//! alone are numbered.
//!
//! `specs/Definitions` says which definition a name has, `specs/Bindings` what a symbol is bound to and what an image
//! exports, and `specs/Faults` what each kind of fault means and which is the first. The other files of specs/ are
//! about what the code keeps: numbers and tables (`Numbers`, `Known`), what an image may export (`Offers`), what a
//! question about names asks (`Charges`), relocations with a property (`Walks`), and the search for the first
//! (`Searches`).
#![tactic(auto)]

mod bindings;
mod charges;
mod duplicates;
mod export_list;
mod exporting;
mod firsts;
mod image_names;
mod imports;
pub mod laws;
mod numbers;
mod searching;
mod uses;

pub use bindings::{Bindings, resolve};
pub use export_list::Exports;
pub use exporting::exports;
pub use imports::{Imports, imports_of};
pub use numbers::symbol_total;
pub use searching::{Question, first_use};
pub use uses::Use;
