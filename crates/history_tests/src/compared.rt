//! Compares found and expected values.

use std::process::Abort;

/// Compares the two, and names the place where they differ.
pub(crate) fn same(rt: &impl Abort, found: &str, want: &str, at: &str) {
    assert!(rt; found == want, "{found}: {at}");
}
