//! Rules 9 and 10: the words, the finished sums and the deposits of the Stability Pool.

ghost use Rattle.std.specs.Prelude.{◌≡◌, IsTrue};
ghost use Rattle.std.specs.List.{list_all};
ghost use Rattle.std.specs.List.Sorted.{IsStrictlySortedBy};
ghost use Rattle.std.specs.Map.{keys_of};
ghost use Rattle.liq_types.specs.ImageRows.{finished_row, deposit_row};
ghost use Rattle.liq_types.specs.Product.{place_order, start_sum};
ghost use Rattle.liq_types.specs.Soundness.{is_product, is_sum_beside, places_most, has_sound_words, has_sound_deposits};
ghost use Rattle.liq_image_rows.specs.Parts.{is_sound_sum, is_deposit_of};

use crate::finished::{ascend, is_before, sum_at};
use liq_types::amounts::{LIM, OFFSET_MOST, P_LEAST, P_OPENING, PLACES_A_RECORD, RECORDS_MOST};
use liq_types::{DepositRow, FinishedRows, FinishedSum, Image};

/// Rule 9: whether the product and the sum beside it, scale and epoch, and each finished sum lie
/// within their bounds, with the places of finished sums before the current one. How far scale and
/// epoch may be is by the records beside the image.
pub fn has_sound_words(image: &Image, records: u64) -> bool
    ensures { result ≡ has_sound_words image.now records }
{
    let most = places_most(image.generation, records);
    let now = (image.epoch, image.scale);
    is_product(image.p)
        && is_sum_beside(image.sum, image.p)
        && u128::from(image.scale) <= most
        && u128::from(image.epoch) <= most
        && are_sound_sums(&image.finished, now)
}

/// Rule 10: whether each deposit has an amount and a product within their bounds, a place that is
/// not after the current one, and a mark of at most the sum at its place.
pub fn has_sound_deposits(image: &Image) -> bool
    ensures { result ≡ has_sound_deposits image.now }
{
    let ascend = ascend(image.finished.rows());
    let rows = image.deposits.rows();
    rows.iter().all(|row| is_sound_deposit(image, ascend, row))
}

/// The most that scale or epoch may be in a generation, behind so many of its records.
fn places_most(generation: u64, records: u64) -> u128
    ensures { result ≡ places_most generation records }
{
    let before = u128::from(RECORDS_MOST) * u128::from(generation.saturating_sub(1));
    u128::from(PLACES_A_RECORD) * (before + u128::from(records))
}

fn is_product(p: u128) -> bool
    ensures { result ≡ is_product p }
{
    P_LEAST <= p && p <= P_OPENING
}

fn is_sum_beside(sum: u128, p: u128) -> bool
    ensures { result ≡ is_sum_beside sum p }
{
    sum <= u128::from(OFFSET_MOST) * P_OPENING.saturating_sub(p)
}

fn are_sound_sums(finished: &FinishedRows, now: (u64, u64)) -> bool
    ensures { result ≡ list_all (is_sound_sum now) finished.now }
{
    finished.rows().iter().all(|row| is_sound_sum(row, now))
}

fn is_sound_sum(row: &FinishedSum, now: (u64, u64)) -> bool
    ensures { result ≡ is_sound_sum now (finished_row row.now) }
{
    row.sum <= u128::from(OFFSET_MOST) * P_OPENING && is_before((row.epoch, row.scale), now)
}

fn is_sound_deposit(image: &Image, ascend: bool, row: &DepositRow) -> bool
    requires { IsTrue ascend → IsStrictlySortedBy place_order (keys_of image.now.finished) }
    ensures { result ≡ is_deposit_of image.now (deposit_row row.now).1 }
{
    row.amount <= LIM
        && is_product(row.p)
        && !is_before((image.epoch, image.scale), (row.epoch, row.scale))
        && row.sum <= sum_at(image, ascend, row.epoch, row.scale)
}
