//! Rules 3, 4 and 5: each gwei and each micro-LUSD has one home. Sums are exact, and 2^128 - 1
//! where they would be more.

ghost use Rattle.std.specs.Prelude.{◌≡◌, map, sum, sum_by};
ghost use Rattle.std.specs.Map.{values_of};
ghost use Rattle.liq_types.specs.declared.figures.Wallet.{Wallet};
ghost use Rattle.liq_types.specs.ImageRows.{wallet_row, surplus_row};
ghost use Rattle.liq_types.specs.Soundness.{has_coll_at_home, has_lusd_at_home, has_surplus_at_home};
ghost use Rattle.liq_image_rows.specs.Capped.{capped};

use liq_types::amounts::RESERVE;
use liq_types::{Image, SurplusRow, WalletRow};

/// Rule 3: whether the collateral that was brought in is that of the wallets and pools.
pub fn has_coll_at_home(image: &Image) -> bool
    ensures { result ≡ has_coll_at_home image.now }
{
    let (in_wallets, _) = sums_of_wallets(image.wallets.rows());
    let at_home = in_wallets
        .saturating_add(u128::from(image.active_coll))
        .saturating_add(u128::from(image.default_coll))
        .saturating_add(u128::from(image.surplus))
        .saturating_add(u128::from(image.fee_coll))
        .saturating_add(u128::from(image.pool_coll));
    u128::from(image.brought) == at_home
}

/// Rule 4: whether all debt is within the limit and is the LUSD of the wallets and pools, with a
/// reserve for each trove.
pub fn has_lusd_at_home(image: &Image) -> bool
    ensures { result ≡ has_lusd_at_home image.now }
{
    let debt = u128::from(image.active_debt) + u128::from(image.default_debt);
    let (_, in_wallets) = sums_of_wallets(image.wallets.rows());
    let at_home = in_wallets
        .saturating_add(u128::from(image.total))
        .saturating_add(u128::from(image.reserve))
        .saturating_add(u128::from(image.fee_lusd));
    let troves = image.troves.rows().len() as u128;
    debt <= u128::from(image.limit)
        && debt == at_home
        && u128::from(image.reserve) == u128::from(RESERVE) * troves
}

/// Rule 5: whether the surplus is the sum of its table.
pub fn has_surplus_at_home(image: &Image) -> bool
    ensures { result ≡ has_surplus_at_home image.now }
{
    u128::from(image.surplus) == sum_of_surplus(image.surplus_rows.rows())
}

/// The wallets' collateral and their LUSD.
fn sums_of_wallets(rows: &[WalletRow]) -> (u128, u128)
    ensures coll { result.0
        ≡ capped (sum_by (λ (w : Wallet). w.coll) (values_of (map wallet_row rows.now))) }
    ensures lusd { result.1
        ≡ capped (sum_by (λ (w : Wallet). w.lusd) (values_of (map wallet_row rows.now))) }
{
    let mut coll = 0_u128;
    let mut lusd = 0_u128;
    for row in rows {
        coll = coll.saturating_add(u128::from(row.coll));
        lusd = lusd.saturating_add(u128::from(row.lusd));
    }
    (coll, lusd)
}

/// What all owners may claim.
fn sum_of_surplus(rows: &[SurplusRow]) -> u128
    ensures { result ≡ capped (sum (values_of (map surplus_row rows.now))) }
{
    let mut coll = 0_u128;
    for row in rows {
        coll = coll.saturating_add(u128::from(row.coll));
    }
    coll
}
