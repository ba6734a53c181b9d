//! The smallest parts of an x86-64 instruction's bytes: a register, and a number.
//!
//! Four bits name one of the sixteen registers, but no field has four bits: three stand in a field of the instruction,
//! and the fourth in its REX prefix. So `010` names %rdx, or %r10 where the REX bit is 1. A [`Register`]'s index in
//! the list is its number.
//!
//! A displacement, a distance or an immediate takes zero, one, four or eight bytes (a [`Size`]), the lowest byte
//! first. Its value has 64 bits whatever its size: it is sign-extended. So `f0` is -16, kept as
//! `0xffff_ffff_ffff_fff0`.
//!
//! `specs/Register` and `specs/Number` restate Intel's manual, volume 2, table 2-2 and 2.2.1.3. The crate
//! `amd64_subset` says what an instruction is and which bytes spell it, and re-exports these types.
#![tactic(auto)]

mod register;
mod size;

pub use register::Register;
pub use size::Size;
