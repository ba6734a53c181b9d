//! The code sequences of an object as text: a line for each, as the command `sites` prints them.
//!
//! A linker may write a cheaper sequence in the place of one that a compiler wrote (`relax_sites`). This text shows
//! what it did. [`push_sites`] appends a line for each site of an object, [`push_site`] one line. A line has six
//! words, separated by spaces:
//!
//! | word | what it says |
//! |---|---|
//! | the object | its name, as the caller gives it |
//! | the section | its number, in decimal |
//! | the offset | that of the site's first byte in the section, in 16 small hexadecimal digits |
//! | the form | `gd`, `ld`, `ie-mov`, `ie-add`, `gd-ind`, `ld-ind`, `desc-lea` or `desc-call` |
//! | the choice | what stands in its place: `keep`, `gd-le`, `gd-ie`, `ld-le`, `ie-le`, `desc-le` or `desc-ie` |
//! | the symbol | its name in the object, `-` for an empty one |
//!
//! For example, the code of `main.o` begins with `lea x@tlsgd(%rip), %rdi; call __tls_get_addr@plt`, and at byte
//! 24 it asks for the module's own block, with a symbol of the assembler that has no name. A program that
//! defines `x` has the lines
//!
//! ```text
//! main.o 1 0000000000000000 gd gd-le x
//! main.o 1 0000000000000018 ld ld-le -
//! ```
//!
//! The rule that the crate keeps: **the text depends only on the object's name, its bytes, its sites and their
//! choices** (`specs/Lines`). If memory runs out, nothing is appended. Names are written byte for byte, even if they
//! are not UTF-8: the text is a list of bytes.
#![tactic(auto)]

mod lines;
mod names;

pub use lines::{push_site, push_sites};
pub use names::{choice_name, form_name};
