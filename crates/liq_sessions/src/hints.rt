//! A session that looks for no hints.

ghost use Rattle.std.specs.Prelude.{◌≡◌, None};

use liq_types::{Hint, Hinter, Request};

/// Finds no hint: both sides are absent, of version 0.
#[derive(Clone, Copy)]
pub struct NoHints;

impl Hinter for NoHints {
    fn hint_for(&mut self, _request: &Request) -> Hint
        ensures { result ≡ record { prev = None; next = None; version = 0 } }
    {
        Hint::NONE
    }
}
