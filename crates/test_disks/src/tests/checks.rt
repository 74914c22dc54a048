//! What stops a test.

use std::process::Abort;

/// What a search gives in the place of an index where it finds nothing.
pub const NOWHERE: u64 = u64::MAX;

/// Stops the test where the number is not the one that is wanted.
pub fn same(rt: &impl Abort, got: u64, want: u64, what: &str) {
    assert_eq!(rt; got, want, "{what}");
}

/// Stops the test where this does not hold.
pub fn shows(rt: &impl Abort, what: &str, holds: bool) {
    assert!(rt; holds, "{what}");
}
