//! The text of every kind of reply.

use crate::tests::checks::shows;
use liq_text::write_reply;
use liq_types::{Done, Info, Refusal, Reply};
use std::alloc::Global;

/// What the reply to each kind of command shows of six values.
const ACCEPTED: [&str; 16] = [
    "ok",
    "ok 7",
    "ok",
    "ok",
    "ok",
    "ok 7 0",
    "ok 7 0 18446744073709551615",
    "ok 7 0",
    "ok 7 0",
    "ok 7 0",
    "ok 7 0",
    "ok 7 0 18446744073709551615 10 100 99",
    "ok 7 0 18446744073709551615 10",
    "ok 7 0 18446744073709551615 10",
    "ok 7",
    "ok 7",
];

const SHOWN: [u64; 6] = [7, 0, u64::MAX, 10, 100, 99];

const TOLD: [(Info, &str); 9] = [
    (
        Info::Wallet {
            coll: 10_000_000_000,
            lusd: 0,
        },
        "10000000000 0",
    ),
    (
        Info::Trove {
            coll: 1,
            debt: 2,
            stake: 3,
        },
        "1 2 3",
    ),
    (Info::NoTrove, "none"),
    (
        Info::Deposit {
            balance: 0,
            gain: u64::MAX,
        },
        "0 18446744073709551615",
    ),
    (Info::NoDeposit, "none"),
    (
        Info::Pools {
            pools: [1, 2, 3, 4, 5, 6, 7, 8, 9, 10],
        },
        "1 2 3 4 5 6 7 8 9 10",
    ),
    (
        Info::Pools {
            pools: [u64::MAX; 10],
        },
        "18446744073709551615 18446744073709551615 18446744073709551615 18446744073709551615 \
            18446744073709551615 18446744073709551615 18446744073709551615 18446744073709551615 \
            18446744073709551615 18446744073709551615",
    ),
    (
        Info::System {
            words: [1_000_000_000, 0, 0, 0, 1, 2, 3, 4, 5, 6],
        },
        "1000000000 0 0 0 1 2 3 4 5 6",
    ),
    (Info::Next { number: u64::MAX }, "18446744073709551615"),
];

const REFUSED: [(Refusal, &str); 31] = [
    (Refusal::PriceRange { price: 99_999_999 }, "no 10 99999999"),
    (Refusal::AmountZero, "no 11"),
    (
        Refusal::AmountLimit {
            sum: 1_000_000_000_000_000_001,
            limit: 1_000_000_000_000_000_000,
        },
        "no 12 1000000000000000001 1000000000000000000",
    ),
    (Refusal::AccountRange { value: 1_048_576 }, "no 13 1048576"),
    (Refusal::ShortCollateral { need: 6, have: 5 }, "no 14 6 5"),
    (Refusal::ShortTokens { need: 2, have: 1 }, "no 15 2 1"),
    (Refusal::TroveExists { account: 3 }, "no 20 3"),
    (Refusal::NoTrove { account: 4 }, "no 21 4"),
    (
        Refusal::FeeBound {
            bound: 1,
            least: 5_000_000_000_000_000,
        },
        "no 22 1 5000000000000000",
    ),
    (
        Refusal::FeeOver {
            left: 100_000_000_000_000_000_000_000_000,
            right: 10_000_000_000_000_000_000_000_000,
        },
        "no 23 100000000000000000000000000 10000000000000000000000000",
    ),
    (
        Refusal::NetDebtLow {
            net: 1_799_995_200,
            least: 1_800_000_000,
        },
        "no 24 1799995200 1800000000",
    ),
    (
        Refusal::RatioLow {
            left: 243_099_999_900_000_000_000,
            right: 243_100_000_000_000_000_000,
        },
        "no 25 243099999900000000000 243100000000000000000",
    ),
    (Refusal::SystemRatioLow { left: 8, right: 9 }, "no 26 8 9"),
    (
        Refusal::RecoveryForbids {
            left: 1_055_000_000_000_000_000_000,
            right: 1_266_000_000_000_000_000_000,
        },
        "no 27 1055000000000000000000 1266000000000000000000",
    ),
    (
        Refusal::RatioFalls {
            left: 0,
            right: u128::MAX,
        },
        "no 28 0 340282366920938463463374607431768211455",
    ),
    (
        Refusal::BothWays {
            first: 1,
            second: 2,
        },
        "no 29 1 2",
    ),
    (Refusal::NoChange, "no 30"),
    (Refusal::LastTrove { troves: 1 }, "no 31 1"),
    (Refusal::NoDeposit { account: 1 }, "no 40 1"),
    (
        Refusal::TroveUnder {
            account: 1,
            left: 460_000_000_000_000_000_000,
            right: 464_200_000_000_000_000_000,
        },
        "no 41 1 460000000000000000000 464200000000000000000",
    ),
    (Refusal::NoGain { account: 5 }, "no 42 5"),
    (
        Refusal::NotLiquidatable {
            coll: 1,
            debt: 2,
            price: 3,
            total_coll: 4,
            total_debt: 5,
        },
        "no 50 1 2 3 4 5",
    ),
    (
        Refusal::PoolTooSmall {
            total: 4_219_999_999,
            debt: 4_220_000_000,
        },
        "no 51 4219999999 4220000000",
    ),
    (
        Refusal::SumLimit {
            sum: 11_000_000_000_000_000_000_000_000_000_000_000_000,
        },
        "no 52 11000000000000000000000000000000000000",
    ),
    (
        Refusal::Bootstrap {
            minute: 20_159,
            limit: 20_160,
        },
        "no 60 20159 20160",
    ),
    (Refusal::SystemUnder { left: 1, right: 2 }, "no 61 1 2"),
    (Refusal::NothingRedeemed { amount: 7, net: 0 }, "no 62 7 0"),
    (Refusal::FeeEatsAll { fee: 5, drawn: 4 }, "no 63 5 4"),
    (Refusal::NoSurplus { account: 1 }, "no 64 1"),
    (Refusal::OutOfTurn { expected: 2 }, "no 70 2"),
    (Refusal::JournalFull { records: 1_000_000 }, "no 81 1000000"),
];

/// Others: values of their own, and the greatest that a refusal shows.
const OTHERS: [(Reply, &str); 3] = [
    (
        Reply::Said(Done {
            kind: 6,
            values: [5_000_000, 10_000_000, 0, 0, 0, 0],
        }),
        "ok 5000000 10000000",
    ),
    (Reply::Told(Info::Wallet { coll: 0, lusd: 12 }), "0 12"),
    (
        Reply::No(Refusal::TroveUnder {
            account: 7,
            left: u128::MAX,
            right: 1,
        }),
        "no 41 7 340282366920938463463374607431768211455 1",
    ),
];

// Whether the reply is written so.
fn is_written(alloc: Global, reply: &Reply, text: &str) -> bool {
    let mut out = Vec::new(alloc);
    write_reply(reply, &mut out).is_ok() && out.as_slice() == text.as_bytes()
}

#[test]
fn accepted(rt: HostRuntime) {
    let mut done = Done {
        kind: 0,
        values: SHOWN,
    };
    for text in &ACCEPTED {
        done.kind = done.kind.saturating_add(1);
        let written = is_written(rt.alloc(), &Reply::Said(done), text);
        shows(&rt, text, written);
    }
}

#[test]
fn texts(rt: HostRuntime) {
    let alloc = rt.alloc();
    for (info, text) in &TOLD {
        shows(&rt, text, is_written(alloc, &Reply::Told(*info), text));
    }
    for (refusal, text) in &REFUSED {
        shows(&rt, text, is_written(alloc, &Reply::No(*refusal), text));
    }
    for (reply, text) in &OTHERS {
        shows(&rt, text, is_written(alloc, reply, text));
    }
}
