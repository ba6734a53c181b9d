//! Marked values: what registers, flags and bytes hold before anything is linked.
//!
//! A linker may rewrite code. Where an object asks for a thread-local variable by a call of `__tls_get_addr`, the
//! linker of an executable may put two instructions that add to the thread pointer (Drepper, "ELF Handling For
//! Thread-Local Storage", section 5), and it may place blocks, tables and stubs as it likes. A rewriting is right if
//! no program can tell. But a program that adds up the bytes of its own code can tell, and so can one that prints the
//! address of a block. Such a program has no meaning of its own: what it does depends on the linker. So the objects
//! get a meaning without a linker (`whole_meaning`), whose steps have two kinds of outcome. A step is clean, and then
//! each image of the objects does the same, rewritten or not; or it is unclean, and says why. This crate has the
//! values of such steps.
//!
//! **Values are marked.** What only the linker knows is a token in the meaning, not a number: the base of one thread's
//! block of an instance, the descriptor of a symbol. A token may be moved to a register, stored, loaded again. `push
//! %rax`, `pop %rdi` move it whole, since its eight bytes are bytes 0 to 7 of that token. `mov %eax, %ecx` moves half
//! of it; nothing is known of the result. `add $1, %rax` would use it as a number, and is unclean with the cause
//! `Base`. One use is allowed: the field of `lea x@dtpoff(%rax), %rdi` stands for an offset in a block, so it may be
//! added to the base of the block of the code's own instance, which gives an address. That address is a number of the
//! meaning: the meaning's own block lies there.
//!
//! **Some addresses are the linker's own**: where it may put tables, and where `__tls_get_addr` is called. A step that
//! accesses one is unclean with the cause `Linker`, whatever it would use: of several causes the first is reported
//! (`beside_linker`, `specs/Reading.antt`).
//!
//! The law ([`laws`]) says that marked values keep the laws of a machine's values: a number behaves as a number, and
//! only a number may be used as one. So the machine that runs programs also runs their meaning ([`MarkedValues`]).
//! `tied_meaning` compares the two, and says what a token stands for in an image.
#![tactic(auto)]

pub mod laws;
mod marked;
mod values;

pub use marked::MarkedValues;
pub use values::{Block, Byte, Flag, Token, Word};
