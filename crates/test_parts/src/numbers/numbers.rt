//! Quotients, powers and comparisons of ratios.

use crate::checks::{same, shows};
use liq_num::{
    HALF, MOST_MINUTES, ONE, dec_mul, dec_pow, mul_div, mul_div_up, ratio_below, ratio_cmp,
};
use std::cmp::Ordering;

/// Minutes, and the decay over them.
const POWERS: [(u64, u64); 6] = [
    (0, ONE),
    (1, 999_037_758_833_783_000),
    (2, 998_076_443_575_627_963),
    (720, 499_999_999_999_860_089),
    (MOST_MINUTES, 0),
    (u64::MAX, 0),
];

#[test]
fn quotients_and_powers(rt: HostRuntime) {
    let one = u128::from(ONE);
    let quotients = [mul_div(one, one - 1, one), mul_div_up(one, 2, 3)];
    same(
        &rt,
        &quotients,
        &[999_999_999_999_999_999, 666_666_666_666_666_667],
        "down and up",
    );
    same(&rt, &dec_mul(HALF, 1), &1, "to the nearest");
    for (n, want) in &POWERS {
        same(&rt, &dec_pow(999_037_758_833_783_000, *n), want, "decay");
    }
}

#[test]
fn ratios(rt: HostRuntime) {
    let price = 1_000_000_000;
    let below = [
        ratio_below(2_431_000_000, 2_210_000_000, price, 110),
        ratio_below(2_430_999_999, 2_210_000_000, price, 110),
    ];
    same(
        &rt,
        &below,
        &[false, true],
        "just 110 percent, and below it",
    );
    let order = [ratio_cmp(1, 3, 2, 6), ratio_cmp(1, 3, u64::MAX, u64::MAX)];
    same(
        &rt,
        &order,
        &[Ordering::Equal, Ordering::Less],
        "equal, and less",
    );
}
