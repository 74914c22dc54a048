//! The base rate's decays and rises, and the fees.

use crate::checks::{same, shows};
use liq_rate::{Rate, borrow_fee, redeem_fee};
use liq_types::amounts::ONE;

/// Minutes, and what is left of a base rate of one.
const DECAYS: [(u64, u64); 5] = [
    (0, ONE),
    (1, 999_037_758_833_783_000),
    (2, 998_076_443_575_627_963),
    (720, 499_999_999_999_860_089),
    (u64::MAX - 5, 0),
];

#[test]
fn decays(rt: HostRuntime) {
    let whole = Rate {
        base: ONE,
        minute: 5,
    };
    for (minutes, left) in &DECAYS {
        let now = 5_u64.saturating_add(*minutes);
        let rate = whole.on_borrow(now);
        let got = [whole.decayed(now), rate.base, rate.minute];
        same(
            &rt,
            &got,
            &[*left, *left, now],
            "what is left, and on a borrowing",
        );
    }
}

/// Micro-LUSD redeemed out of a supply, the base rate that it leaves of none, and the fee in gwei.
const RISES: [[u64; 4]; 3] = [
    [
        5_000_000_000,
        8_440_000_000,
        296_208_530_805_687_203,
        1_506_042_654,
    ],
    [
        4_020_000_000,
        8_440_000_000,
        238_151_658_767_772_511,
        977_469_668,
    ],
    [1, 1, ONE / 2, 0],
];

#[test]
fn redemptions(rt: HostRuntime) {
    let none = Rate { base: 0, minute: 0 };
    for [redeemed, supply, base, fee] in &RISES {
        shows(&rt, "a part", *redeemed >= 1 && redeemed <= supply);
        let rate = none.on_redeem(20_160, *redeemed, *supply);
        shows(&rt, "at most one", rate.base <= ONE);
        let got = [rate.base, rate.minute, redeem_fee(rate.base, *redeemed)];
        same(
            &rt,
            &got,
            &[*base, 20_160, *fee],
            "on a redemption, and its fee",
        );
    }
    let whole = Rate {
        base: ONE,
        minute: 0,
    };
    let rate = whole.on_redeem(0, 1, 1);
    let got = [rate.base, rate.minute, redeem_fee(ONE, 7)];
    same(&rt, &got, &[ONE, 0, 7], "at its greatest, and all of it");
}

/// A base rate, micro-LUSD borrowed, and the fee.
const BORROWINGS: [[u64; 3]; 4] = [
    [0, 4_000_000_000, 20_000_000],
    [0, 199, 0],
    [45_000_000_000_000_000, 2_000_000_000, 100_000_000],
    [ONE, 2_000_000_000, 100_000_000],
];

#[test]
fn borrowings(rt: HostRuntime) {
    for [base, amount, fee] in &BORROWINGS {
        shows(&rt, "a rate", *base <= ONE);
        same(&rt, &borrow_fee(*base, *amount), fee, "a fee");
    }
}
