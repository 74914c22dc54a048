//! What stops a test.

use std::process::Abort;

/// Stops the test where this does not hold.
pub fn shows(rt: &impl Abort, what: &str, holds: bool) {
    assert!(rt; holds, "{what}");
}
