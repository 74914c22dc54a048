//! Comparisons of a trove's ratio, the worth of its collateral over its debt, without a division.

ghost use Rattle.std.specs.Prelude.{◌≡◌, ◌≤◌, ◌*◌, ◌^◌, ◌↔◌, IsTrue};
ghost use Rattle.liq_num.specs.Ratio.{ratio_order, IsBelowPercent};

use std::cmp::Ordering;

/// Collateral is counted in gwei, and a price is in micro-LUSD for a whole ETH: so many gwei make
/// one.
pub const GWEI_PER_ETH: u64 = 1_000_000_000;

/// Collateral (gwei) at a price (micro-LUSD per ETH) beside `percent` hundredths of a debt
/// (micro-LUSD): what it is worth, and what they ask for, over the same denominator.
pub fn ratio_sides(coll: u64, debt: u64, price: u64, percent: u64) -> (u128, u128)
    requires price_limit { price ≤ 10 ^ 12 }
    requires percent_limit { percent ≤ 150 }
    ensures worth { result.0 ≡ coll * price * 100 }
    ensures asked { result.1 ≡ percent * debt * GWEI_PER_ETH }
{
    let worth = u128::from(coll) * u128::from(price) * 100;
    let asked = u128::from(percent) * u128::from(debt) * u128::from(GWEI_PER_ETH);
    (worth, asked)
}

/// Whether collateral (gwei) at a price (micro-LUSD per ETH) is worth less than `percent`
/// hundredths of a debt (micro-LUSD).
pub fn ratio_below(coll: u64, debt: u64, price: u64, percent: u64) -> bool
    requires price_limit { price ≤ 10 ^ 12 }
    requires percent_limit { percent ≤ 150 }
    ensures { IsTrue result ↔ IsBelowPercent coll debt price percent }
{
    let (worth, needed) = ratio_sides(coll, debt, price, percent);
    worth < needed
}

/// How the ratio of collateral `c1` to debt `d1` compares with that of `c2` to `d2`.
pub fn ratio_cmp(c1: u64, d1: u64, c2: u64, d2: u64) -> Ordering
    ensures { result ≡ ratio_order c1 d1 c2 d2 }
{
    (u128::from(c1) * u128::from(d2)).cmp(&(u128::from(c2) * u128::from(d1)))
}
