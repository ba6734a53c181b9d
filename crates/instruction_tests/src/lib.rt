//! Tests of the instruction decoder and encoder, by public calls alone.
//!
//! They are a crate of their own, so that the crates under test are proved once. The expected results come from
//! outside: GNU as wrote the bytes, and objdump printed the text.
#![tactic(auto)]

#[cfg(test)]
mod instructions;
