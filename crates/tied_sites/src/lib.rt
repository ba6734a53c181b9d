//! Laws of the loaded code in place of each sequence: it does what the sequence means. No code runs here.
//!
//! The meaning takes a TLS sequence as one step (`whole_meaning`). The loaded image has instructions instead: those
//! that a compiler wrote, whose fields lead to a stub and to entries of a table, or the row that a linker wrote over
//! them. This crate proves that the two match, for each form, kept and rewritten, and for each linked image: it gives
//! the record `Stands` (`tied_meaning`), by which the steps of the machine are compared.
//!
//! The rule of the crate: **a field leads from the instruction's end to where its value says, whatever the load
//! bias**, since the field and its target move together; and **the entry's line in the table of loaded words says what
//! it finds there** (`loaded_words`). So a form needs only its row of fields and entries:
//!
//! ```text
//! gd       lea pair(%rip), %rdi; call stub        the pair of the variable; the stub, which jumps through a word
//! ie       mov word(%rip), %r                     the variable's distance
//! desc     lea descriptor(%rip), %rax             the descriptor of the symbol
//! gd, rewritten to local exec
//!          mov %fs:0, %rax; lea d(%rax), %rax     d is the variable's distance itself
//! ```
//!
//! For example, an image has the pair of `x` at 0x3000, and the sequence's lea at 0x1000, whose field lies at 0x1004
//! and ends at 0x1008. The linker writes 0x3000 - 4 - 0x1004, that is 0x1ff8. With load bias b the lea gives 0x1008 +
//! b + 0x1ff8 = 0x3000 + b, where the loader left x's module id and offset.
//!
//! `specs/Instances` has the conditions on an instance's numbers, and `specs/Laws` the laws, one for each group of
//! forms.
#![tactic(auto)]

mod laws;

pub use laws::{
    descriptor_sites_stand, general_sites_stand, initial_sites_stand, local_sites_stand,
    sites_stand,
};
