//! Tests of the guest machine by public calls alone: of running instructions, and of marked values.
//!
//! They are a crate of their own, so that the crates under test are proved once. The expected results come from
//! outside: from the processor that ran the rows of `machine/rows.rt`, and from the guide for the numbers of places.
#![tactic(auto)]

#[cfg(test)]
mod machine;
#[cfg(test)]
mod meaning;
mod places;
