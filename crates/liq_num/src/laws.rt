//! What holds of the definitions that the contracts cite, at all numbers. The functions here do
//! nothing: each is the place where the facts of its contract are proved.

ghost use Rattle.std.specs.Prelude.{◌≡◌, ℕ, ◌+◌, ◌-◌, ◌*◌, ◌/◌, ◌^◌, ◌<◌, ◌≤◌, ◌↔◌, min};
ghost use Rattle.std.specs.Ordering.{nat_cmp, ordering_reverse};
ghost use Rattle.liq_num.specs.Quotient.{floor_of, ceiling_of};
ghost use Rattle.liq_num.specs.Power.{rounded_product, power_of};
ghost use Rattle.liq_num.specs.Ratio.{ratio_order, IsBelow, IsBelowPercent};

use crate::power::{HALF, MOST_MINUTES, ONE};
use crate::ratio::GWEI_PER_ETH;
use std::cmp::Ordering;

/// The quotient rounded down is the greatest number whose product with the divisor does not pass
/// `a * b`.
pub fn floor_is_next_below()
    ensures not_above { (a b c : ℕ) → 0 < c → floor_of a b c * c ≤ a * b }
    ensures within_one { (a b c : ℕ) → 0 < c → a * b < (floor_of a b c + 1) * c }
{}

/// The quotient rounded up is the least number whose product with the divisor reaches `a * b`.
pub fn ceiling_is_next_above()
    ensures not_below { (a b c : ℕ) → 0 < c → a * b ≤ ceiling_of a b c * c }
    ensures within_one { (a b c : ℕ) → 0 < c → ceiling_of a b c * c < a * b + c }
{}

/// Both quotients rise with each factor and fall with the divisor.
pub fn quotients_are_monotone()
    ensures floor { (a b c p q d : ℕ) → a ≤ p → b ≤ q → 0 < d → d ≤ c
        → floor_of a b c ≤ floor_of p q d }
    ensures ceiling { (a b c p q d : ℕ) → a ≤ p → b ≤ q → 0 < d → d ≤ c
        → ceiling_of a b c ≤ ceiling_of p q d }
{}

/// A part of the whole gives at most the whole amount, and rounding up gives at most one more than
/// rounding down.
pub fn quotients_stay_within()
    ensures floor { (a b c : ℕ) → 0 < c → b ≤ c → floor_of a b c ≤ a }
    ensures ceiling { (a b c : ℕ) → 0 < c → b ≤ c → ceiling_of a b c ≤ a }
    ensures not_below { (a b c : ℕ) → floor_of a b c ≤ ceiling_of a b c }
    ensures within_one { (a b c : ℕ) → ceiling_of a b c ≤ floor_of a b c + 1 }
{}

/// The rounded product is within half of a 10^18th of the exact one.
pub fn product_is_nearest()
    ensures not_far_above { (x y : ℕ) → rounded_product x y * ONE ≤ x * y + HALF }
    ensures not_far_below { (x y : ℕ) → x * y < rounded_product x y * ONE + HALF }
{}

/// The whole leaves the other factor as it is, and a product of fractions passes neither factor.
pub fn products_stay_within()
    ensures whole { (y : ℕ) → rounded_product ONE y ≡ y }
    ensures turned { (x y : ℕ) → rounded_product x y ≡ rounded_product y x }
    ensures at_most { (x y : ℕ) → x ≤ ONE → rounded_product x y ≤ y }
    ensures rising { (x y p q : ℕ) → x ≤ p → y ≤ q → rounded_product x y ≤ rounded_product p q }
{}

/// A power of a fraction is a fraction, and rises with its base.
pub fn powers_stay_within()
    ensures at_most { (x n : ℕ) → x ≤ ONE → power_of x n ≤ ONE }
    ensures rising { (x p n : ℕ) → x ≤ p → power_of x n ≤ power_of p n }
{}

/// The power along the binary digits of its exponent. With no digit it is the whole, and with the
/// lowest alone the base; the power at the next digit is the square of that at the digit before;
/// and one more digit on top multiplies by the power at that digit. Up to the most minutes this
/// fixes every power. Doubling the exponent squares the base.
pub fn powers_follow_the_digits()
    ensures none { (x : ℕ) → power_of x 0 ≡ ONE }
    ensures one { (x : ℕ) → power_of x 1 ≡ x }
    ensures next_digit { (x k : ℕ) → 2 ^ (k + 1) ≤ MOST_MINUTES →
        power_of x (2 ^ (k + 1)) ≡ rounded_product (power_of x (2 ^ k)) (power_of x (2 ^ k)) }
    ensures digit_on_top { (x k n : ℕ) → n < 2 ^ k → 2 ^ k + n ≤ MOST_MINUTES →
        power_of x (2 ^ k + n) ≡ rounded_product (power_of x (2 ^ k)) (power_of x n) }
    ensures doubled { (x n : ℕ) → 2 * n ≤ MOST_MINUTES
        → power_of x (2 * n) ≡ power_of (rounded_product x x) n }
    ensures capped { (x n : ℕ) → MOST_MINUTES ≤ n → power_of x n ≡ power_of x MOST_MINUTES }
{}

/// Ratios are ordered as the fractions that they are: expanding either changes nothing, and at one
/// debt the collateral decides. So any two can be brought to one debt and read off.
pub fn ratio_order_is_that_of_fractions()
    ensures expanded { (c1 d1 c2 d2 k m : ℕ) → 0 < k → 0 < m →
        ratio_order (k * c1) (k * d1) (m * c2) (m * d2) ≡ ratio_order c1 d1 c2 d2 }
    ensures at_one_debt { (c1 c2 d : ℕ) → 0 < d → ratio_order c1 d c2 d ≡ nat_cmp c1 c2 }
    ensures less { (c1 d1 c2 d2 : ℕ) → (ratio_order c1 d1 c2 d2 ≡ Ordering.Less)
        ↔ IsBelow c1 d1 c2 d2 }
{}

/// The order of ratios is total: turned round it reverses, what is below a ratio is below all that
/// this ratio is below, and ratios that are equal compare alike with every other.
pub fn ratio_order_is_total()
    ensures reversed { (c1 d1 c2 d2 : ℕ) → ratio_order c1 d1 c2 d2
        ≡ ordering_reverse (ratio_order c2 d2 c1 d1) }
    ensures transitive { (c1 d1 c2 d2 c3 d3 : ℕ) → IsBelow c1 d1 c2 d2 → IsBelow c2 d2 c3 d3
        → IsBelow c1 d1 c3 d3 }
    ensures equal_alike { (c1 d1 c2 d2 c3 d3 : ℕ) → 0 < d1 → 0 < d2 → ratio_order c1 d1 c2 d2
        ≡ Ordering.Equal →
        ratio_order c1 d1 c3 d3 ≡ ratio_order c2 d2 c3 d3 }
{}

/// A ratio is below another exactly where its quotient, rounded down, is below the other's at some
/// scale.
pub fn ratio_order_shows_in_quotients()
    ensures { (c1 d1 c2 d2 : ℕ) → 0 < d1 → 0 < d2 →
        IsBelow c1 d1 c2 d2 ↔ ((scale : ℕ) × (floor_of c1 scale d1 < floor_of c2 scale d2)) }
{}

/// A ratio in percent is the worth of the collateral, in 10^9ths of micro-LUSD, over the debt in
/// the same unit, compared with hundredths.
pub fn percent_is_a_fraction()
    ensures { (coll debt price percent : ℕ) →
        IsBelowPercent coll debt price percent
        ↔ IsBelow (coll * price) (debt * GWEI_PER_ETH) percent 100 }
{}

/// Single values, worked out apart from the definitions.
pub fn known_values()
    ensures floor { floor_of (10 ^ 18) (10 ^ 18 - 1) (10 ^ 18) ≡ 999999999999999999 }
    ensures ceiling { ceiling_of (10 ^ 18) 2 3 ≡ 666666666666666667 }
    ensures power_0 { power_of 999037758833783000 0 ≡ 10 ^ 18 }
    ensures power_1 { power_of 999037758833783000 1 ≡ 999037758833783000 }
    ensures power_2 { power_of 999037758833783000 2 ≡ 998076443575627963 }
    ensures half_a_day { power_of 999037758833783000 720 ≡ 499999999999860089 }
    ensures most { power_of 999999999999783000 MOST_MINUTES ≡ 999885951304013360 }
    ensures past_most { power_of 999999999999783000 (2 ^ 64 - 1) ≡ 999885951304013360 }
{}
