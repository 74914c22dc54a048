//! Rules 6 and 7: the troves, and what is the sum of theirs. Sums are exact, and 2^128 - 1 where
//! they would be more.

ghost use Rattle.std.specs.Prelude.{◌≡◌, map, sum_by};
ghost use Rattle.std.specs.List.{list_all};
ghost use Rattle.std.specs.Map.{values_of};
ghost use Rattle.liq_types.specs.declared.figures.Trove.{Trove};
ghost use Rattle.liq_types.specs.ImageRows.{trove_row};
ghost use Rattle.liq_types.specs.Soundness.{is_sound_trove, has_sound_troves, has_troves_added_up};
ghost use Rattle.liq_image_rows.specs.Capped.{capped};

use liq_types::amounts::{MIN_NET, RESERVE, SUM_MOST};
use liq_types::{Image, TroveRow, TroveRows};

/// Rule 6: whether each trove has a stake of at most its collateral, its least debt, and marks of
/// at most the sums, which are within their bound.
pub fn has_sound_troves(image: &Image) -> bool
    ensures { result ≡ has_sound_troves image.now }
{
    are_sound(&image.troves, image.sum_coll, image.sum_debt)
        && image.sum_coll <= SUM_MOST
        && image.sum_debt <= SUM_MOST
}

/// Rule 7: whether the stakes and the active pool are the sums over the troves, and the last
/// snapshot has both of its words or none.
pub fn has_troves_added_up(image: &Image) -> bool
    ensures { result ≡ has_troves_added_up image.now }
{
    let TroveSums { stakes, coll, debt } = sums_of_troves(image.troves.rows());
    u128::from(image.stakes) == stakes
        && u128::from(image.active_coll) == coll
        && u128::from(image.active_debt) == debt
        && image.snap_stakes <= image.snap_coll
        && (image.snap_stakes == 0) == (image.snap_coll == 0)
}

fn are_sound(troves: &TroveRows, sum_coll: u128, sum_debt: u128) -> bool
    ensures { result ≡ list_all (is_sound_trove sum_coll sum_debt) (values_of troves.now) }
{
    troves
        .rows()
        .iter()
        .all(|row| is_sound(row, sum_coll, sum_debt))
}

fn is_sound(row: &TroveRow, sum_coll: u128, sum_debt: u128) -> bool
    ensures { result ≡ is_sound_trove sum_coll sum_debt (trove_row row.now).1 }
{
    1 <= row.stake
        && row.stake <= row.coll
        && RESERVE + MIN_NET <= row.debt
        && row.mark_coll <= sum_coll
        && row.mark_debt <= sum_debt
}

/// What all troves have together.
struct TroveSums {
    stakes: u128,
    coll: u128,
    debt: u128,
}

fn sums_of_troves(rows: &[TroveRow]) -> TroveSums
    ensures stakes { result.stakes
        ≡ capped (sum_by (λ (t : Trove). t.stake) (values_of (map trove_row rows.now))) }
    ensures coll { result.coll
        ≡ capped (sum_by (λ (t : Trove). t.coll) (values_of (map trove_row rows.now))) }
    ensures debt { result.debt
        ≡ capped (sum_by (λ (t : Trove). t.debt) (values_of (map trove_row rows.now))) }
{
    let mut stakes = 0_u128;
    let mut coll = 0_u128;
    let mut debt = 0_u128;
    for row in rows {
        stakes = stakes.saturating_add(u128::from(row.stake));
        coll = coll.saturating_add(u128::from(row.coll));
        debt = debt.saturating_add(u128::from(row.debt));
    }
    TroveSums { stakes, coll, debt }
}
