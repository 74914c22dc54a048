//! What holds of the definitions that the contracts cite. The functions here do nothing: each is
//! the place where the facts of its contract are proved.

ghost use Rattle.std.specs.Prelude.{◌≡◌, ℕ, ◌+◌, ◌-◌, ◌*◌, ◌≤◌, ◌<◌, ◌↔◌, List, IsTrue};
ghost use Rattle.std.specs.List.{AllByRecursion};
ghost use Rattle.liq_num.specs.Ratio.{IsBelow, IsBelowPercent};
ghost use Rattle.liq_num.specs.declared.ratio.TheConstants.{GWEI_PER_ETH};
ghost use Rattle.liq_types.specs.Image.{Image};
ghost use Rattle.liq_types.specs.Product.{ScaledProduct, IsWithinRange, TakesPart, after_offset, product_after, rise_of, sum_growth, place_of, start_words, prod};
ghost use Rattle.liq_types.specs.State.{PoolOffset};
ghost use Rattle.liq_types.specs.Totals.{is_below_percent, is_at_most_whole, is_ratio_below};

use crate::amounts::{OFFSET_MOST, P_LEAST, P_OPENING, RISES_MOST};
use liq_num::GWEI_PER_ETH;

/// The tests of ratios decide the comparisons.
pub fn tests_of_ratios_decide()
    ensures percent { (coll debt price percent : ℕ)
        → IsTrue (is_below_percent coll debt price percent)
        ↔ IsBelowPercent coll debt price percent }
    ensures whole { (coll debt price : ℕ) → IsTrue (is_at_most_whole coll debt price)
        ↔ (coll * price ≤ debt * GWEI_PER_ETH) }
    ensures below { (c1 d1 c2 d2 : ℕ) → IsTrue (is_ratio_below c1 d1 c2 d2) ↔ IsBelow c1 d1 c2 d2 }
{}

/// The Stability Pool's product stays between its least and the whole, whatever part of the pool is
/// taken; an offset raises the scale by at most [`RISES_MOST`] steps, and by no more than it must.
/// Beside a product a sum has at most the part of the whole that the product has lost,
/// [`OFFSET_MOST`] times, and one that is finished at most that of the whole.
pub fn product_stays_within()
    ensures one { (w : ScaledProduct) → (o : PoolOffset) → IsWithinRange w → TakesPart o
        → IsWithinRange (after_offset w o) }
    ensures few { (w : ScaledProduct) → (o : PoolOffset) → IsWithinRange w → TakesPart o
        → rise_of w.p o ≤ RISES_MOST }
    ensures no_more { (w : ScaledProduct) → (o : PoolOffset) → IsWithinRange w → TakesPart o
        → (steps : ℕ) → steps < rise_of w.p o → product_after w.p o steps < P_LEAST }
    ensures sum { (w : ScaledProduct) → (o : PoolOffset) → (sum : ℕ) → IsWithinRange w → TakesPart o
        → o.coll ≤ OFFSET_MOST * o.debt →
        sum ≤ OFFSET_MOST * (P_OPENING - w.p) → place_of (after_offset w o) ≡ place_of w →
        sum + sum_growth w o ≤ OFFSET_MOST * (P_OPENING - (after_offset w o).p) }
    ensures finished { (w : ScaledProduct) → (o : PoolOffset) → (sum : ℕ) → IsWithinRange w
        → TakesPart o → o.coll ≤ OFFSET_MOST * o.debt →
        sum ≤ OFFSET_MOST * (P_OPENING - w.p) → sum + sum_growth w o ≤ OFFSET_MOST * P_OPENING }
    ensures all { (i : Image) → (offsets : List PoolOffset) → IsWithinRange (start_words i)
        → AllByRecursion TakesPart offsets → IsWithinRange (prod i offsets) }
{}
