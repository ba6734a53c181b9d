//! The image of objects: linking, for every kind of image.
//!
//! A compiler leaves two things open. It does not know where a symbol will be, so it leaves a *field*, and says in a
//! *relocation* what belongs there. And it does not know whether a thread-local variable will be in the program or in
//! another module, so it writes the longest *sequence* that finds it, in bytes that a linker can recognize. This crate
//! puts together what the crates below it know of both:
//!
//! ```text
//! names      what each relocation's symbol is bound to                       tls_symbols
//! refusals   what the image's kind and its storage refuse                    link_needs
//! places     where each section goes, in memory and in the TLS segment       tls_layout
//! plan       the global offset table, and the value of each field            link_needs
//!
//! sections   each at its place in the file                                   placed_sections
//! fields     the value of each relocation, written in its section            tls_relocs, here
//! sequences  the new ones, written over those that are rewritten             relax_sites, here
//! tables     headers, and symbols and relocations for a loader               link_tables, image_writer
//! file       the headers, the sections, the table, the stub, the tables      here
//! ```
//!
//! Linking has two halves. [`prepare`] does what is above the gap. It tests all that can refuse the objects, except
//! whether each field holds its value, and returns a [`ReadyLink`], which has no byte of the image.
//! [`ReadyLink::overflow`] finds the first field that can't hold its value. It writes no byte either, so a caller that
//! wants no image can ask whether objects can be linked. If there is no such field, [`ReadyLink::pieces`] is what is
//! below the gap: the file, of which each section is a piece, linked when the piece is made. [`ReadyLink::write`] joins
//! the pieces, for a caller that wants an image. Both fail only when memory runs out. [`link`] prepares, asks, writes.
//!
//! **The rule of bytes** (`specs/Bytes`): each section is at its place, and of its bytes only the fields of relocations
//! and the rewritten sequences are changed. After the sections come the table and the stub, and after these the dynamic
//! tables. Gaps are zero, and there is nothing else. `specs/Meant` says what each byte is without a word of how it is
//! written, and `laws::bytes_are_meant` that the two agree.
//!
//! **The rule of faults** (link_tables, `specs/Faults`): the first fault is reported. The order is Undefined,
//! Duplicate, NotTls, LocalExecInModule, NarrowInModule, TlsTooLarge, ImageTooLarge, NoTls, and last Overflow, which
//! depends on every address. Of each kind it is the first object, section and entry.
//!
//! For example, b.o has `f`, which asks for the address of its own variable `x`, at offset 8 of `.tdata`, with the
//! general dynamic sequence. Linked as a program, and linked as a program whose sequences are kept:
//!
//! ```text
//! 400000  64 48 8b 04 25 00 00 00 00    mov %fs:0, %rax               the thread pointer
//!         48 8d 80 f0 ff ff ff          lea -16(%rax), %rax           x is 16 bytes below it
//!         c3                            ret
//!
//! 400000  66 48 8d 3d f8 1f 00 00       lea 0x402000(%rip), %rdi      x's pair in the table
//!         66 66 48 e8 f0 2f 00 00       call 0x403000                 the stub
//!         c3                            ret
//! 401000  00 .. 2a 00 00 00 ..          the initial image
//! 402000  01 00 .. 08 00 .. 00 00 ..    module 1, offset 8; the word of __tls_get_addr, which the loader fills
//! 403000  ff 25 0a f0 ff ff             jmp *0x402010(%rip)
//! ```
//!
//! Names are compared by hash, and each section is copied once. Each relocation is looked at twice: for what it needs
//! (link_needs), and where its field is written. Faults are looked for among what objects noted of their relocations
//! when they were read; only an object that may have a fault is walked for it, and a field whose addend is near zero
//! never overflows. Each section finds its sequences by binary search. But for these searches, time is linear in
//! objects, sections, symbols, relocations and bytes.
//!
//! A section is linked by itself: what is written in it never depends on what is written in another. So threads fill
//! a large file, each some sections of it, in place (`specs/Laying`). No clause of the image depends on how many threads
//! there are.
//!
//! The rules are those of "ELF Handling For Thread-Local Storage" (Drepper), of the psABI ("Thread-Local Storage",
//! "Relocation Types") and of the gABI ("Program Loading and Dynamic Linking").
#![tactic(auto)]

mod draft;
mod file;
mod image_pieces;
pub mod laws;
mod linked;
mod linking;
mod overflow;
mod pieces;
mod ready;
mod sections;

pub use image_pieces::ImagePieces;
pub use linked::Linked;
pub use linking::link;
pub use ready::{ReadyLink, prepare};
