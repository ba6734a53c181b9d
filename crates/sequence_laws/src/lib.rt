//! Which instructions a processor reads at a TLS code sequence, kept or rewritten: laws, and no code.
//!
//! A linker knows a sequence by its bytes (`sequence_match`) and writes bytes in its place (`relax_sites`); a
//! processor knows instructions (`amd64_subset`). This crate says that the two agree. The bytes of a kept site are
//! read as the one or two instructions that the compiler wrote there; those of a rewritten site as the ones that its
//! row names. They fill the site, and whatever a linker writes into their fields changes one number each:
//!
//! ```text
//! 64 48 8b 04 25 00 00 00 00    mov %fs:0, %rax
//! 48 8d 80 f0 ff ff ff          lea -16(%rax), %rax
//! ```
//!
//! is read as the two instructions of general dynamic code that became local exec, with 7 bytes and a displacement at 3
//! for the second, and with f0 ff ff ff, -16, as that displacement.
//!
//! The rule of the crate: **a row's assembly text is what its bytes mean**, for each register and any number in each
//! field. So a reader of the tables need not decode a byte, and a wrong digit in a row breaks a law. The instructions
//! are those of "ELF Handling For Thread-Local Storage" (Drepper) and of the psABI ("Thread-Local Storage"), encoded
//! as in Intel's manual, volume 2. `specs/Instructions` has them, a row for each form and choice, and `specs/Laws`
//! has what is proved of them.
#![tactic(auto)]

mod laws;

pub use laws::{
    kept_sites_are_read, kept_sites_are_whole, rewritten_sites_are_read, rewritten_sites_are_whole,
};
