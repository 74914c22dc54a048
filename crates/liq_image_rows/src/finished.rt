//! The sum at a place, looked for among the finished sums.

ghost use Rattle.std.specs.Prelude.{◌≡◌, ◌↔◌, IsTrue, map, unwrap_or};
ghost use Rattle.std.specs.List.Sorted.{IsStrictlySortedBy};
ghost use Rattle.std.specs.Map.{keys_of, lookup};
ghost use Rattle.liq_types.specs.ImageRows.{finished_row};
ghost use Rattle.liq_types.specs.Soundness.{is_before};
ghost use Rattle.liq_types.specs.Product.{is_place, place_order, start_sum};

use liq_types::{FinishedSum, Image};

/// The sum at an epoch and a scale: the current one at the current place, else a finished one, and
/// 0 where none is kept. `ascend` tells that the finished sums stand in ascending places.
pub(crate) fn sum_at(image: &Image, ascend: bool, epoch: u64, scale: u64) -> u128
    requires { IsTrue ascend → IsStrictlySortedBy place_order (keys_of image.now.finished) }
    ensures { result ≡ start_sum image.now (epoch, scale) }
{
    if image.epoch == epoch && image.scale == scale {
        image.sum
    } else if ascend {
        find(image.finished.rows(), epoch, scale)
    } else {
        first(image.finished.rows(), epoch, scale)
    }
}

/// Whether a place, an epoch and a scale, is before another.
pub(crate) fn is_before(a: (u64, u64), b: (u64, u64)) -> bool
    ensures { result ≡ is_before a b }
{
    a.0 < b.0 || (a.0 == b.0 && a.1 < b.1)
}

/// Whether the finished sums stand in ascending places, each place once.
pub(crate) fn ascend(finished: &[FinishedSum]) -> bool
    ensures { IsTrue result
        ↔ IsStrictlySortedBy place_order (keys_of (map finished_row finished.now)) }
{
    for at in 1..finished.len() {
        let (last, next) = (&finished[at - 1], &finished[at]);
        if !is_before((last.epoch, last.scale), (next.epoch, next.scale)) {
            return false;
        }
    }
    true
}

/// The sum at a place, found by halving the rows.
fn find(finished: &[FinishedSum], epoch: u64, scale: u64) -> u128
    requires { IsStrictlySortedBy place_order (keys_of (map finished_row finished.now)) }
    ensures { result ≡ unwrap_or (lookup (is_place (epoch, scale))
        (map finished_row finished.now)) 0 }
{
    match finished.binary_search_by_key(&(epoch, scale), |row| (row.epoch, row.scale)) {
        Ok(at) => finished[at].sum,
        Err(_) => 0,
    }
}

/// The sum at a place, one row after the other: rows in no order have the first one's.
fn first(finished: &[FinishedSum], epoch: u64, scale: u64) -> u128
    ensures { result ≡ unwrap_or (lookup (is_place (epoch, scale))
        (map finished_row finished.now)) 0 }
{
    for row in finished {
        if row.epoch == epoch && row.scale == scale {
            return row.sum;
        }
    }
    0
}
