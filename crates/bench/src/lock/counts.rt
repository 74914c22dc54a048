//! The value under both locks: a count of turns, with an empty history.
ghost use Rattle.std.specs.Prelude.{[]};

use liq_lock::Chronicle;

#[derive(Drop)]
pub struct Counted {
    pub turns: u64,
}

impl Chronicle for Counted {
    type Item = ();

    ghost history = { λ _. [] };

    ghost maker = { λ _. 0 };

    fn entries(&self) -> u64 {
        0
    }
}
