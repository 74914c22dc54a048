//! Runs from the opening, and the images that they leave.

use crate::bytes::{Told, Version};
use crate::outcomes::Outcome;
use liq_types::amounts::ONE;
use liq_types::{Call, HintWords};

/// Calls of client 1, each under the number behind the last that was accepted, and what they leave.
#[derive(Clone, Copy)]
pub struct Run {
    pub what: &'static str,
    /// Of the journal in which the run begins. A rotation makes it the second.
    pub version: Version,
    /// What several runs begin with, and then its own calls.
    pub first: &'static [Call],
    pub calls: &'static [Call],
    /// Without the client's row.
    pub image: Told,
    /// The client's row.
    pub client: &'static str,
    /// The bytes of its checkpoint.
    pub length: u64,
    /// What comes of the checkpoint: an image amid a generation may break the rule on the Stability
    /// Pool's epoch.
    pub begins: Outcome,
    /// The client's row behind a rotation. Nothing else changes then but the generation, which is
    /// 2.
    pub rotated: &'static str,
}

pub const OPENING: Told = Told {
    words: [
        "1000000000 0 0 0 1 0",
        "0 0 0 0 0 0 0 0",
        "0 0 0 0 0",
        "1000000000000000000 0 0 0 0 0",
    ],
    tables: [""; 6],
};

/// Most of a trove is offset by the Stability Pool, and the other trove takes over the rest.
const MOSTLY_OFFSET: &[Call] = &[
    Call::Fund(1, 10_000_000_000),
    Call::Open(1, 10_000_000_000, 4_000_000_000, ONE, HintWords::NONE),
    Call::Fund(2, 100_000_000_000),
    Call::Open(2, 100_000_000_000, 4_000_000_000, ONE, HintWords::NONE),
    Call::Provide(2, 4_000_000_000),
    Call::Price(460_000_000),
    Call::Liquidate(3, 1),
];

/// The Stability Pool has all that the lower of two troves owes, at a price at which only a part of
/// its collateral is offset.
const COVERED: &[Call] = &[
    Call::Fund(1, 8_440_000_000),
    Call::Fund(2, 12_660_000_000),
    Call::Open(1, 8_440_000_000, 4_000_000_000, ONE, HintWords::NONE),
    Call::Open(2, 12_660_000_000, 4_000_000_000, ONE, HintWords::NONE),
    Call::Send(1, 2, 220_000_000),
    Call::Provide(2, 4_220_000_000),
    Call::Price(560_000_000),
];

/// What is left when that trove was liquidated.
const CAPPED: Told = Told {
    words: [
        "560000000 0 0 0 1 21100000000",
        "12660000000 4220000000 0 0 200000000 150714286 0 40000000",
        "0 0 12660000000 12660000000 12660000000",
        "1000000000000000000 0 1 0 0 8247839286",
    ],
    tables: [
        "1 0 3780000000\n\
            3 41446428 200000000",
        "2 12660000000 4220000000 12660000000 0 0",
        "1 150714286",
        "0 0 1954464285781990521",
        "2 4220000000 1000000000000000000 0 0 0",
        "",
    ],
};

/// All runs. The steps of a function that names the table itself are proved with all that it holds,
/// so no other names it.
pub fn all_runs() -> &'static [Run] {
    &RUNS
}

static RUNS: [Run; 9] = [
    Run {
        what: "nothing",
        version: Version::Two,
        first: &[],
        calls: &[],
        image: OPENING,
        client: "",
        length: 288,
        begins: Outcome::Same,
        rotated: "1 1 16 2 0 0 0 0 0",
    },
    Run {
        what: "collateral comes in",
        version: Version::Two,
        first: &[],
        calls: &[Call::Fund(1, 10_000_000_000)],
        image: Told {
            words: [
                "1000000000 0 0 0 1 10000000000",
                "0 0 0 0 0 0 0 0",
                "0 0 0 0 0",
                "1000000000000000000 0 0 0 0 0",
            ],
            tables: ["1 10000000000 0", "", "", "", "", ""],
        },
        client: "1 1 3 0 0 0 0 0 0",
        length: 369,
        begins: Outcome::Same,
        rotated: "1 2 16 2 0 0 0 0 0",
    },
    Run {
        what: "collateral comes in up to the lesser limit",
        version: Version::One,
        first: &[],
        calls: &[
            Call::Fund(1, 10_000_000_000),
            Call::Fund(1, 1_000_000_000_000_000_000),
            Call::Fund(1, 999_999_990_000_000_001),
            Call::Fund(1, 999_999_990_000_000_000),
        ],
        image: Told {
            words: [
                "1000000000 0 0 0 1 1000000000000000000",
                "0 0 0 0 0 0 0 0",
                "0 0 0 0 0",
                "1000000000000000000 0 0 0 0 0",
            ],
            tables: ["1 1000000000000000000 0", "", "", "", "", ""],
        },
        client: "1 2 3 0 0 0 0 0 0",
        length: 369,
        begins: Outcome::Same,
        rotated: "1 3 16 2 0 0 0 0 0",
    },
    Run {
        what: "the Stability Pool takes over most of a trove, and the other trove the rest",
        version: Version::Two,
        first: MOSTLY_OFFSET,
        calls: &[],
        image: Told {
            words: [
                "460000000 0 0 0 1 110000000000",
                "100000000000 4220000000 518720380 220000000 200000000 0 0 40000000",
                "5187203800000000 2200000000000000 100000000000 100000000000 100518720380",
                "1000000000000000000 0 1 0 0 9431279620",
            ],
            tables: [
                "1 0 4000000000\n\
                    3 50000000 200000000",
                "2 100000000000 4220000000 100000000000 0 0",
                "",
                "0 0 2357819905000000000",
                "2 4000000000 1000000000000000000 0 0 0",
                "",
            ],
        },
        client: "1 7 12 50000000 4000000000 9431279620 220000000 518720380 0",
        length: 541,
        begins: Outcome::Unsound(9),
        rotated: "1 8 16 2 0 0 0 0 0",
    },
    Run {
        what: "a depositor's gain goes into its trove",
        version: Version::Two,
        first: MOSTLY_OFFSET,
        calls: &[Call::GainToTrove(2, HintWords::NONE)],
        image: Told {
            words: [
                "460000000 0 0 0 1 110000000000",
                "109950000000 4440000000 0 0 200000000 0 0 40000000",
                "5187203800000000 2200000000000000 109382610109 100000000000 100518720380",
                "1000000000000000000 0 1 0 0 0",
            ],
            tables: [
                "1 0 4000000000\n\
                    3 50000000 200000000",
                "2 109950000000 4440000000 109382610109 5187203800000000 2200000000000000",
                "",
                "0 0 2357819905000000000",
                "",
                "",
            ],
        },
        client: "1 8 11 9431279620 109950000000 0 0 0 0",
        length: 481,
        begins: Outcome::Unsound(9),
        rotated: "1 9 16 2 0 0 0 0 0",
    },
    Run {
        what: "a trove takes over all of another",
        version: Version::Two,
        first: &[],
        calls: &[
            Call::Fund(1, 8_440_000_000),
            Call::Fund(2, 12_660_000_000),
            Call::Open(1, 8_440_000_000, 4_000_000_000, ONE, HintWords::NONE),
            Call::Open(2, 12_660_000_000, 4_000_000_000, ONE, HintWords::NONE),
            Call::Provide(2, 4_000_000_000),
            Call::Price(500_000_000),
            Call::Liquidate(3, 1),
        ],
        image: Told {
            words: [
                "500000000 0 0 0 1 21100000000",
                "12660000000 4220000000 8397800000 4220000000 200000000 0 0 40000000",
                "663333333333333333 333333333333333333 12660000000 12660000000 21057800000",
                "1000000000000000000 0 0 0 4000000000 0",
            ],
            tables: [
                "1 0 4000000000\n\
                    3 42200000 200000000",
                "2 12660000000 4220000000 12660000000 0 0",
                "",
                "",
                "2 4000000000 1000000000000000000 0 0 0",
                "",
            ],
        },
        client: "1 7 12 42200000 0 0 4220000000 8397800000 0",
        length: 509,
        begins: Outcome::Same,
        rotated: "1 8 16 2 0 0 0 0 0",
    },
    Run {
        what: "the lowest trove is liquidated at a capped price",
        version: Version::Two,
        first: COVERED,
        calls: &[Call::LiquidateLowest(3, 5)],
        image: CAPPED,
        client: "1 8 13 1 41446428 4220000000 8247839286 0 0",
        length: 553,
        begins: Outcome::Unsound(9),
        rotated: "1 9 16 2 0 0 0 0 0",
    },
    Run {
        what: "its owner claims the rest, and then there is none",
        version: Version::Two,
        first: COVERED,
        calls: &[Call::LiquidateLowest(3, 5), Call::Claim(1), Call::Claim(1)],
        image: Told {
            words: [
                "560000000 0 0 0 1 21100000000",
                "12660000000 4220000000 0 0 200000000 0 0 40000000",
                "0 0 12660000000 12660000000 12660000000",
                "1000000000000000000 0 1 0 0 8247839286",
            ],
            tables: [
                "1 150714286 3780000000\n\
                    3 41446428 200000000",
                "2 12660000000 4220000000 12660000000 0 0",
                "",
                "0 0 1954464285781990521",
                "2 4220000000 1000000000000000000 0 0 0",
                "",
            ],
        },
        client: "1 9 15 150714286 0 0 0 0 0",
        length: 541,
        begins: Outcome::Unsound(9),
        rotated: "1 10 16 2 0 0 0 0 0",
    },
    Run {
        what: "the same trove, liquidated by its owner's number",
        version: Version::Two,
        first: COVERED,
        calls: &[Call::Liquidate(3, 1)],
        image: CAPPED,
        client: "1 8 12 41446428 4220000000 8247839286 0 0 150714286",
        length: 553,
        begins: Outcome::Unsound(9),
        rotated: "1 9 16 2 0 0 0 0 0",
    },
];
