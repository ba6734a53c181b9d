//! The layout of an image: the addresses of sections, and their offsets in a block of thread-local storage.
//!
//! Linking joins the sections of many objects into one image. A loader maps an image page by page, and gives a page
//! one set of rights, so sections are sorted into *classes*: code, constants, the initial image of thread-local
//! storage, data that programs write. A thread-local variable has two places. Its initial value lies in the image, at
//! an address, and each thread's copy lies in that thread's *block* of the module, at an offset. The part of an image
//! that a loader copies to make a block, with the zeros that follow it, is the *TLS segment* (`PT_TLS`: Drepper, "ELF
//! Handling For Thread-Local Storage", section 3).
//!
//! The rule of addresses: the classes follow each other, each on a page of its own, the first at the image's base. In
//! a class the sections stand in the order of objects and, in an object, by number, **each at the least multiple of
//! its alignment at or after the end of the one before**. Gaps are zeros. Data without bytes in the file
//! (`SHT_NOBITS`) follows all data with bytes. Thread-local sections without bytes have no address: only blocks hold
//! their zeros. Offsets follow the same rule from 0, sections with bytes first, so the start of the segment has the
//! same layout in a block as in the image. A section of no bytes counts too: its alignment moves the end of its
//! class. On the first page after all of this begins the *room*, where a linker puts what it adds: no section lies
//! there, and nothing that it adds moves a section.
//!
//! An example: an executable of two objects, with sections written as type, size and alignment.
//!
//! ```text
//!                         address    offset
//! a.o .text   17, 16      0x400000             code begins at the base
//!     .tdata  20,  8      0x401000   0x00      the initial image on the next page
//!     .tbss    5, 16                 0x20      0x19 bytes of both objects' .tdata, rounded up to 16
//! b.o .text    9, 16      0x400020             0x11 rounded up to 16
//!     .tdata   1,  8      0x401018   0x18
//! TLS segment             0x25 bytes, alignment 16, of which the image has 0x19
//! room                    0x402000
//! ```
//!
//! [`place`] returns a [`Placement`] for objects, or a fault for what is too large; a placement looks places up in
//! tables, without a walk. [`static_offsets`] returns how far below a thread pointer each startup module's block
//! begins: the program's first, each next one below it (Drepper, section 3, variant II). [`laws`] states what holds
//! of every layout: no two sections overlap, each is aligned and lies in its class, and no two blocks share a byte.
//!
//! `specs/Sections` says what a layout knows of objects, `specs/Places` where sections go, `specs/Statics` where
//! blocks go, and `specs/Laws` the laws. Finding the places takes one walk over the objects' sections and eight over
//! the list that it makes: one for each class and part of the TLS segment, and one for the alignment.
#![tactic(auto)]

mod extent;
mod image_places;
pub mod laws;
mod lay_out;
mod placement;
mod section_list;
mod sections;
mod statics;
mod tls_places;

pub use elf_records::alignment::PAGE;
pub use extent::{Extent, page_up, round_up};
pub use placement::{Placement, place};
pub use sections::is_class;
pub use statics::{TlsSize, static_offsets};
