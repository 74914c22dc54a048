//! Rule 8: what is pending for the troves. Sums are exact, and 2^128 - 1 where they would be more.

ghost use Rattle.std.specs.Prelude.{◌≡◌, ◌-◌, ◌*◌, map, sum_by};
ghost use Rattle.std.specs.Map.{values_of};
ghost use Rattle.liq_types.specs.ImageRows.{trove_row};
ghost use Rattle.liq_types.specs.Soundness.{is_backed, coll_due, debt_due};
ghost use Rattle.liq_image_rows.specs.Capped.{capped};

use liq_types::amounts::ONE;
use liq_types::{Image, TroveRow};

/// Rule 8: whether what is pending for all troves is in the default pool.
pub fn is_backed(image: &Image) -> bool
    ensures { result ≡ is_backed image.now }
{
    let (coll, debt) = dues_of_troves(image.troves.rows(), image.sum_coll, image.sum_debt);
    coll <= u128::from(image.default_coll) * u128::from(ONE)
        && debt <= u128::from(image.default_debt) * u128::from(ONE)
}

/// What is due to all troves before any rounding, in collateral and in debt, over 10^18.
fn dues_of_troves(rows: &[TroveRow], sum_coll: u128, sum_debt: u128) -> (u128, u128)
    ensures coll { result.0
        ≡ capped (sum_by (coll_due sum_coll) (values_of (map trove_row rows.now))) }
    ensures debt { result.1
        ≡ capped (sum_by (debt_due sum_debt) (values_of (map trove_row rows.now))) }
{
    let mut coll = 0_u128;
    let mut debt = 0_u128;
    for row in rows {
        coll = coll.saturating_add(due(row.stake, sum_coll, row.mark_coll));
        debt = debt.saturating_add(due(row.stake, sum_debt, row.mark_debt));
    }
    (coll, debt)
}

/// What is due to a stake since a mark.
fn due(stake: u64, sum: u128, mark: u128) -> u128
    ensures { result ≡ capped (stake * (sum - mark)) }
{
    u128::from(stake).saturating_mul(sum.saturating_sub(mark))
}
