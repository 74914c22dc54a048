//! Whose hint counts.

use crate::tests::checks::shows;
use liq_core_hinted::{Hints, words_of};
use liq_types::{Call, Hint, HintWords};

/// The accounts on both sides of a place.
type Sides = (Option<u32>, Option<u32>);

/// What a guide says, if there is one, a command's own words, and between whom the list is asked
/// for a place then. The hint that is given is always that between 5 and 6, of version 7.
type Row = (&'static str, Option<Sides>, Sides, Sides);

const GIVEN: Sides = (Some(5), Some(6));

const ROWS: [Row; 6] = [
    (
        "the guide's comes first",
        Some((Some(1), Some(2))),
        (Some(3), Some(4)),
        (Some(1), Some(2)),
    ),
    (
        "so it does where nothing else stands in the list",
        Some((None, None)),
        (Some(3), Some(4)),
        (None, None),
    ),
    (
        "words count where there is no guide",
        None,
        (Some(3), Some(4)),
        (Some(3), Some(4)),
    ),
    (
        "so does the first of them alone",
        None,
        (Some(3), None),
        (Some(3), None),
    ),
    ("and the second", None, (None, Some(4)), (None, Some(4))),
    ("the given one counts last", None, (None, None), GIVEN),
];

fn hint(sides: Sides) -> Hint {
    Hint {
        prev: sides.0,
        next: sides.1,
        version: 7,
    }
}

/// The words of a call with these two.
fn words(sides: Sides) -> HintWords {
    let words = HintWords {
        prev: sides.0,
        next: sides.1,
    };
    words_of(&Call::GainToTrove(1, words))
}

/// The first row in which another hint counts.
fn odd_row() -> Option<&'static str> {
    for (what, exact, own, want) in ROWS {
        let hints = Hints {
            exact: exact.map(hint),
            words: words(own),
            given: hint(GIVEN),
        };
        if hints.used() != hint(want) {
            return Some(what);
        }
    }
    None
}

#[test]
fn the_guide_comes_first(rt: HostRuntime) {
    let odd = odd_row();
    shows(&rt, odd.unwrap_or("each row"), odd.is_none());
    let none = words_of(&Call::Close(1));
    shows(&rt, "a call without words", none == HintWords::NONE);
}
