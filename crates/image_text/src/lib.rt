//! An image as text, as the command `show` prints it: a line for each fact that a loader needs.
//!
//! [`push_shown`] appends the text of an image (`image_file`). This is the text of a program that defines a
//! function `f`, a thread-local variable `x` and a variable `n`, and calls `__tls_get_addr` of the run time:
//!
//! ```text
//! kind exe                                          what it is: exe, pie or module
//! part x 0000000000400000 23                        each part: what may be done with it, its address, its length
//! part r 0000000000401000 20
//! part rw 0000000000402000 4
//! part rw 0000000000403000 24
//! part x 0000000000404000 6
//! part r 0000000000405000 342
//! tls 0000000000401000 20 20 8                      the TLS segment: its address, the bytes that the file has of it,
//!                                                   the bytes of a thread's block, its alignment
//! relro 0000000000403000 24                         the part that the loader alone writes (the GOT), once more
//! symbol 0000000000400000 2 f                       each symbol: its value, its type, its name
//! symbol 0000000000000008 6 x
//! symbol 0000000000402000 1 n
//! symbol 0000000000000000 0 import __tls_get_addr   one that is not defined here
//! reloc 0000000000403010 7 4 0                      each relocation: its place, its type, its symbol, its addend
//! ```
//!
//! A last line `static-tls` says that the image uses static TLS: its code needs its TLS block at a fixed distance
//! from the thread pointer. Addresses, values and places have 16 hexadecimal digits, all other numbers are decimal,
//! and only an addend has a sign. Types are the numbers of the gABI and the psABI. Symbol 0, the reserved one, is
//! left out, so symbol 4 is on the fourth line of symbols. A name is written byte for byte, even if it is not UTF-8:
//! the text is a list of bytes.
//!
//! The text is a function of what the bytes of the file spell (`specs/Shown`), so two files that spell one image have
//! one text.
#![tactic(auto)]

mod lines;
mod shown;

pub use crate::shown::push_shown;
