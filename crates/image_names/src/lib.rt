//! The functions and variables of an image that was read, by name.
//!
//! A run time gets names: which function a thread calls, and which variable's bytes it shows. An image has a table of
//! symbols with names for that; with 65,536 symbols, a job may ask 65,536 times. This crate walks over the table
//! once, and hashes each name where it stands in the image, without a copy. After that a look-up allocates no memory
//! and reads only the name, however many symbols there are.
//!
//! The rule that it keeps: **a name stands for its first symbol, and for nothing else.** Symbol 0 is reserved (gABI,
//! "Symbol Table"), so the search begins at symbol 1. A second symbol with the name changes nothing, even if the
//! first one is not defined.
//!
//! 1. The first symbol is a *function* if it is defined, not thread-local, and its value is the address of a byte of
//!    an executable part. The address after the last byte does not belong to the part.
//!    [`function`](ImageNames::function) returns the address, before the image is moved.
//! 2. It is a *variable* if it is defined and thread-local. The value of such a symbol is not an address: it is an
//!    offset in the TLS segment, and so in each thread's block of it (gABI, "Symbol Table", `STT_TLS`; Drepper, "ELF
//!    Handling For Thread-Local Storage", section 3). [`variable`](ImageNames::variable) returns it.
//!
//! An example. A program has nine bytes of code at 0x400000, a TLS segment of eight bytes, and these symbols:
//!
//! ```text
//!      name         info     section  value
//! 1    01 00 00 00  12   00  01 00    00 00 40 00 00 00 00 00  ..    f, GLOBAL FUNC
//! 2    01 00 00 00  12   00  01 00    04 00 40 00 00 00 00 00  ..    f again
//! 3    03 00 00 00  10   00  01 00    09 00 40 00 00 00 00 00  ..    end, GLOBAL NOTYPE
//! 4    07 00 00 00  16   00  01 00    02 00 00 00 00 00 00 00  ..    x, GLOBAL TLS
//! 5    09 00 00 00  16   00  00 00    00 00 00 00 00 00 00 00  ..    y, which another image defines
//! ```
//!
//! `f` is called at 0x400000. `end` is not a function, since the code ends before 0x400009; neither are `x` and `y`.
//! `x` lies 2 bytes into each block; `y` belongs to another image, and `f` is not a variable.
//!
//! `specs/Functions` and `specs/Variables` say what a name stands for, and `specs/Meanings` what the code keeps.
#![tactic(auto)]

mod meaning;
mod names;
mod table;
mod variable;

pub use meaning::is_executed;
pub use names::ImageNames;
pub use variable::Variable;
