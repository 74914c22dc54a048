//! What every row asserts by.

ghost use Rattle.std.specs.Prelude.{IsTrue};

use std::process::Abort;

/// A number, or several, or an answer, is what was worked out.
pub fn same<R: Abort, T: PartialEq>(rt: &R, got: &T, want: &T, what: &str) {
    assert!(rt; *got == *want, "{what}");
}

/// Something holds.
pub fn shows<R: Abort>(rt: &R, what: &str, holds: bool)
    ensures { IsTrue holds }
{
    assert!(rt; holds, "{what}");
}
