//! What an image refuses of the relocations of its objects, and what it needs before a byte of it is laid: its global
//! offset table, its stub, and the value of each field.
//!
//! A linker decides before it writes. What a relocation's field holds depends on where each section is, and on the
//! entry of the global offset table (GOT) that it may reach. Which entries there are depends on the code: the psABI's
//! sequences for thread-local storage reach one each, unless the linker rewrites them to sequences that reach none. So
//! the decisions have an order:
//!
//! ```text
//! choices    which sequence takes the place of each                         relax_sites
//! symbols    what each symbol of a relocation is bound to                   tls_symbols, tls_layout
//! needs      what code needs of the GOT, and its entries                    got_pairs
//! places     the GOT after the sections, the stub after the GOT             here
//! fields     the value of each relocation                                   tls_relocs
//! ```
//!
//! [`Inputs`] is what is known before: the objects with their sequences, what their names are bound to, and where their
//! sections go. [`plan_of`] lays out the table and returns a [`Plan`]. It answers what the field of each relocation
//! holds, or that it can't hold its value; which relocations have no field, because their sequence is rewritten; and
//! which sequence takes the place of each. `link_core` asks whether objects can be linked at all, and writes what is
//! decided here.
//!
//! The rule that the crate keeps: **each answer is a function of the link** (`specs/Linking`): its kind, its objects
//! with their sequences, what the startup images export, and whether sequences may be rewritten. `specs/Needs` has what
//! code needs and where it is, `specs/Values` what fields hold.
//!
//! For example, `f` asks for the address of its own variable `x` with the general dynamic sequence, and `x` is at
//! offset 8 of a TLS segment whose block begins 24 bytes below the thread pointer. In a program the sequence is
//! rewritten. Its field holds -16 (`f0 ff ff ff`), the distance of `x` from the thread pointer, and it needs nothing of
//! the table. If sequences are kept, it needs the pair of `x`, the words 1 and 8 (module 1, offset 8), and the word of
//! `__tls_get_addr`, through which the stub jumps.
//!
//! What a symbol is bound to, and which sequence takes the place of each, is found once. One walk over an object's
//! relocations finds those that reach a word of the table, and the fields with addresses that a loader fills in. What
//! code needs depends on no other object: threads share the objects, and what they find is joined in order.
//!
//! **Refusals.** Objects may have no fault, and all of their names may be bound, and still no image can be made of
//! them. Code that holds a variable's distance from the thread pointer (local exec) works in a program, whose block has
//! the same distance in every thread, and not in a module. An address in 32 bits does not work where the loader moves
//! the image. Code that asks for the block of its own image asks for nothing if the image has no thread-local storage.
//! A linker that accepted these would make an image that reads another's memory (`specs/Refusals`):
//!
//! ```text
//! TPOFF32                 LocalExecInModule in a module, loaded with the program or opened by a thread
//! R_X86_64_32, _32S       NarrowInModule    in a module, and in a program that may be loaded at any address
//! TLSLD                   NoTls             in an image whose segment of thread-local storage has no bytes
//! GOTPC32_TLSDESC         NoTls             in such an image, if its symbol is bound to the image itself
//! TLSGD, GOTTPOFF         NoTls             in such a module, if its symbol is bound to the module itself
//! ```
//!
//! [`ask_kind`] tests what the image's kind refuses, before names are bound: `LocalExecInModule` anywhere is reported
//! before `NarrowInModule`. [`ask_tls`] tests for `NoTls` in an image whose names are bound. Each returns `Ok` exactly
//! if nothing is refused, and else the first object, section and entry. These calls allocate no memory and read no
//! name. [`has_few_relocations`] says whether an image has at most [`MAX_RELOCATIONS`] relocations.
//!
//! The rules are those of "ELF Handling For Thread-Local Storage" (Drepper, sections 3 to 5) and of the psABI
//! ("Thread-Local Storage", "Relocation Types").
#![tactic(auto)]

mod asking;
mod charge;
mod inputs;
pub mod laws;
mod needs;
mod plan;
mod symbol_values;

pub use asking::{MAX_RELOCATIONS, ask_kind, ask_tls, has_few_relocations};
pub use inputs::Inputs;
pub use needs::{AbsoluteField, new_relocation};
pub use plan::{Plan, plan_of};
pub use symbol_values::SymbolValue;
