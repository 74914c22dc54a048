//! Replies in 96 bytes.

use crate::tests::{is, shows};
use liq_replies96::laws::one_reply;
use liq_replies96::{bad, encode, no_memory};
use liq_types::{Done, Info, Refusal, Reply};

/// A number of two words.
const WIDE: u128 = (1 << 64) + 6;

fn replies() -> [bool; 6] {
    // odd: law called
    one_reply();
    let values = [9; 6];
    let sum = WIDE;
    let limit = 9;
    [
        is(
            &encode(&Reply::Said(Done { kind: 3, values })),
            [1, 3, 0],
            0,
            0,
        ),
        is(
            &encode(&Reply::Told(Info::Wallet { coll: 5, lusd: 7 })),
            [2, 1, 2],
            5,
            7,
        ),
        is(&encode(&Reply::Told(Info::NoTrove)), [2, 2, 0], 0, 0),
        is(
            &encode(&Reply::No(Refusal::AmountLimit { sum, limit })),
            [3, 12, 2],
            6,
            1,
        ),
        is(&bad(8), [4, 0, 1], 8, 0),
        is(&no_memory(), [5, 0, 0], 0, 0),
    ]
}

#[test]
fn replies_are_spelled(rt: HostRuntime) {
    let is_right = replies() == [true; 6];
    shows(&rt, "replies in 96 bytes", is_right);
}
