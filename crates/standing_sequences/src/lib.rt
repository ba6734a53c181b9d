//! Where rewritten forms of sequences stand in a linked image, and what stands everywhere else: laws, and no code.
//!
//! A compiler that does not know where a thread-local variable will lie writes the longest sequence that finds it,
//! and marks it by relocations. A linker that knows more may write a cheaper form in its place ("ELF Handling For
//! Thread-Local Storage", section 5; psABI, "Thread-Local Storage"). A reader of the image wants to know two things:
//! that the linker did so wherever it may, and that it changed nothing else. `link_core` describes the image as a
//! linker makes it; this crate says what stands in it, by the objects and the table alone.
//!
//! The rule of the crate: **a sequence's rewritten form stands exactly where its bytes, its relocations, its
//! symbol's binding, the image's kind and the setting match the table; everywhere else the object's own bytes stand,
//! except in fields.** The first two make it a sequence (`IsSequence`); for the other three the table has these
//! lines (`specs/Table`):
//!
//! ```text
//! rewriting, in a program    the program's own variable    one of a module that starts with it
//! gd, also by *call          mov %fs:0; lea tpoff          mov %fs:0; add gottpoff
//! ld, also by *call          mov %fs:0                     mov %fs:0
//! ie mov                     mov $tpoff                    kept
//! ie add                     lea tpoff, or add $tpoff      kept
//! desc lea                   mov $tpoff                    mov gottpoff
//! desc call                  nop                           nop
//!
//! no rewriting, or a module: all are kept
//! ```
//!
//! Byte by byte: a form that the table gives stands whole, and its field holds the value of its relocation, which
//! fits ([`rewritten_forms_stand`]). All other bytes of sections are the object's own ([`own_bytes_stand`]), except
//! in the fields of relocations, which hold their values ([`fields_stand`]). And sequence by sequence: outside of
//! fields no rewritten form has the bytes of the sequence that it replaces ([`rows_differ`]), so the bytes of an
//! image show what the table said, and the table says what they are ([`sequences_stand_by_the_table`]). The linker's
//! choice, which `tlsld sites` prints, is that of the table ([`choices_are_the_tables`]).
//!
//! `specs/Images` says this of any image (`HoldsTheTable`), and the laws of the one that a linker makes of its objects
//! ([`linked_images_hold_the_table`]). It leaves no byte of a section open: two images that hold the table agree there
//! ([`images_with_the_table_agree`]). So it is a clause of the top calls: `commands` says it of the bytes that `link`
//! puts, as they are read, and of each image that `run`, `race` and `gen` load.
//!
//! For example, a program has `x` at offset -4 from the thread pointer, and a module that starts with it has `y`
//! ([`example_stands`] computes it from the bytes of the object):
//!
//! ```text
//! in the object, and linked without rewriting       linked with rewriting, at 0x400000
//! 66 48 8d 3d ....  lea x@tlsgd(%rip), %rdi         64 48 8b 04 25 00 00 00 00  mov %fs:0, %rax
//! 66 66 48 e8 ....  call __tls_get_addr             48 8d 80 fc ff ff ff        lea -4(%rax), %rax
//! 66 48 8d 3d ....  lea y@tlsgd(%rip), %rdi         64 48 8b 04 25 00 00 00 00  mov %fs:0, %rax
//! 66 66 48 e8 ....  call __tls_get_addr             48 03 05 e0 1f 00 00        add 0x402000(%rip), %rax
//! 48 8b 05 ....     mov y@gottpoff(%rip), %rax      48 8b 05 d9 1f 00 00        mov 0x402000(%rip), %rax
//! c3                ret                             c3                          ret
//! ```
//!
//! The linker's image is `image_of` (`link_core`); `link` writes its bytes, and `run` reads it back from them.
//! `loaded_bytes` says what a loader makes of it, and `tied_sites` that each form does what its sequence means. The
//! laws ask of the objects only what reading them has checked: they link, and each of their thread-local accesses
//! is a sequence (`IsLinked`).
//!
//! The proof is short. `link_core` says what each byte is, by the linker's choice; the table gives that choice,
//! sequences share no byte, and a relocation's field goes with its sequence.
#![tactic(auto)]

mod laws;

pub use laws::{
    choices_are_the_tables, example_stands, fields_stand, images_with_the_table_agree,
    linked_images_hold_the_table, own_bytes_stand, rewritten_forms_stand, rows_differ,
    sequences_stand_by_the_table,
};
