//! What an offset makes of the pool's words.

ghost use Rattle.std.specs.Prelude.{◌≡◌, ◌+◌, ◌-◌, ◌*◌, ◌^◌, ◌≤◌, ◌<◌, IsTrue};
ghost use Rattle.liq_types.specs.Product.{product_after, rise_of, after_offset};
ghost use Rattle.liq_types.specs.Soundness.{is_product, is_sum_beside};
ghost use Rattle.liq_stability.specs.Words.{words_in, offset_in, words_after, finished_by};

use crate::words::PoolWords;
use liq_num::mul_div;
use liq_types::FinishedSum;
use liq_types::amounts::{LIM, OFFSET_MOST, P_LEAST, P_OPENING, RISES_MOST};

/// One step of the scale multiplies the product by this.
const STEP: u128 = 1_000_000_000;

/// The words after the pool took over debt (micro-LUSD) for collateral (gwei), and the sum of the
/// place that they leave: none where they stay at their place, or where that sum is 0. The scale
/// rises by as many steps as the product needs, and where the debt is all of the pool the epoch
/// ends. What is left of a quotient is dropped.
pub fn offset_words(words: &PoolWords, debt: u64, coll: u64) -> (PoolWords, Option<FinishedSum>)
    requires product { IsTrue (is_product words.now.p) }
    requires sum { IsTrue (is_sum_beside words.now.sum words.now.p) }
    requires some { 1 ≤ debt }
    requires within { debt ≤ words.now.total }
    requires total { words.now.total ≤ LIM }
    requires worth { coll ≤ OFFSET_MOST * debt }
    requires limit { words.now.coll + coll ≤ LIM }
    requires scale { words.now.scale ≤ 2 ^ 64 - 4 }
    requires epoch { words.now.epoch ≤ 2 ^ 64 - 4 }
    ensures words { result.0 ≡ words_after words.now debt coll }
    ensures finished { result.1 ≡ finished_by words.now debt coll }
    ensures product { IsTrue (is_product result.0.p) }
    ensures sum { IsTrue (is_sum_beside result.0.sum result.0.p) }
    ensures scale { result.0.scale ≤ words.now.scale + RISES_MOST }
    ensures epoch { result.0.epoch ≤ words.now.epoch + 1 }
{
    let sum = words.sum + mul_div(u128::from(coll), words.p, u128::from(words.total));
    let next = product_after(words, debt);
    let stays = (words.epoch, words.scale) == (next.epoch, next.scale);
    let after = PoolWords {
        p: next.p,
        scale: next.scale,
        epoch: next.epoch,
        sum: if stays { sum } else { 0 },
        total: words.total - debt,
        coll: words.coll + coll,
    };
    let finished = FinishedSum {
        epoch: words.epoch,
        scale: words.scale,
        sum,
    };
    (after, (!stays && sum != 0).then_some(finished))
}

/// The product, and the scale and the epoch in which it counts.
#[derive(Clone, Copy)]
struct Product {
    p: u128,
    scale: u64,
    epoch: u64,
}

/// The product after an offset, and where it counts: the whole in a new epoch, where all of the
/// pool is taken.
fn product_after(words: &PoolWords, debt: u64) -> Product
    requires product { IsTrue (is_product words.now.p) }
    requires some { 1 ≤ debt }
    requires within { debt ≤ words.now.total }
    requires total { words.now.total ≤ LIM }
    requires scale { words.now.scale ≤ 2 ^ 64 - 4 }
    requires epoch { words.now.epoch ≤ 2 ^ 64 - 4 }
    ensures p { result.p ≡ (after_offset (words_in words.now) (offset_in words.now debt 0)).p }
    ensures scale { result.scale
        ≡ (after_offset (words_in words.now) (offset_in words.now debt 0)).scale }
    ensures epoch { result.epoch
        ≡ (after_offset (words_in words.now) (offset_in words.now debt 0)).epoch }
{
    if debt == words.total {
        return Product {
            p: P_OPENING,
            scale: 0,
            epoch: words.epoch + 1,
        };
    }
    let (p, rise) = product_left(words, debt);
    Product {
        p,
        scale: words.scale + rise,
        epoch: words.epoch,
    }
}

/// The product after an offset that leaves a part of the pool, and by how many steps the scale
/// rises.
fn product_left(words: &PoolWords, debt: u64) -> (u128, u64)
    requires product { IsTrue (is_product words.now.p) }
    requires some { 1 ≤ debt }
    requires part { debt < words.now.total }
    requires total { words.now.total ≤ LIM }
    ensures p { result.0 ≡ product_after words.now.p (offset_in words.now debt 0) result.1 }
    ensures rise { result.1 ≡ rise_of words.now.p (offset_in words.now debt 0) }
    ensures few { result.1 ≤ RISES_MOST }
{
    let total = u128::from(words.total);
    let mut part = words.p * u128::from(words.total - debt);
    let mut rise = 0;
    while part / total < P_LEAST {
        part *= STEP;
        rise += 1;
    }
    (part / total, rise)
}
