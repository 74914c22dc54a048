//! Whose hint the list is asked with.
ghost use Rattle.std.specs.Prelude.{◌≡◌};
ghost use Rattle.liq_core.specs.Steps.{words_of};
ghost use Rattle.liq_core_hinted.specs.Hints.{guides_alone, hint_used};

use liq_types::{Call, Hint, HintWords};

/// What is said of a trove's place before the list is asked.
#[derive(Clone, Copy)]
pub struct Hints {
    /// By the guide: it is exact.
    pub exact: Option<Hint>,
    /// By the command's own words.
    pub words: HintWords,
    /// By whoever calls.
    pub given: Hint,
}

impl Hints {
    /// The guide's alone.
    pub fn of_guide(exact: Option<Hint>) -> Hints
        ensures { result ≡ guides_alone exact }
    {
        Hints {
            exact,
            words: HintWords::NONE,
            given: Hint::NONE,
        }
    }

    /// The one that counts: the guide's; else the command's own words, where one of them is there;
    /// else the one that is given.
    pub fn used(&self) -> Hint
        ensures { result ≡ hint_used self.now }
    {
        match self.exact {
            Some(hint) => hint,
            None if self.words.prev.is_none() && self.words.next.is_none() => self.given,
            None => Hint {
                prev: self.words.prev,
                next: self.words.next,
                version: self.given.version,
            },
        }
    }
}

/// The hint words of a call. Most calls have none.
pub fn words_of(call: &Call) -> HintWords
    ensures { result ≡ words_of call.now }
{
    match *call {
        Call::Open(_, _, _, _, words)
        | Call::Adjust(_, _, _, _, _, _, words)
        | Call::GainToTrove(_, words)
        | Call::Redeem(_, _, _, words) => words,
        _ => HintWords::NONE,
    }
}
