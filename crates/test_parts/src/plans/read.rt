//! What is compared, as numbers.

use liq_ledger::{Pools, Wallets};
use liq_liquidation::One;
use liq_troves::Trove;

/// The collateral for the liquidator, debt and collateral for the Stability Pool, debt and
/// collateral for the other troves, and what the owner may claim.
pub fn parts(one: &One) -> [u64; 6] {
    let [offset_debt, offset_coll] = [one.offset_debt, one.offset_coll];
    let [spread_debt, spread_coll] = [one.spread_debt, one.spread_coll];
    [
        one.gas,
        offset_debt,
        offset_coll,
        spread_debt,
        spread_coll,
        one.surplus,
    ]
}

/// Collateral and LUSD of an account.
pub fn wallet(wallets: &Wallets, account: u32) -> [u64; 2] {
    let wallet = wallets.read(account);
    [wallet.coll, wallet.lusd]
}

/// Active collateral and debt, default collateral and debt, reserve, surplus, and the fees'
/// collateral and LUSD.
pub fn pools(pools: &Pools) -> [u64; 8] {
    [
        pools.active_coll,
        pools.active_debt,
        pools.default_coll,
        pools.default_debt,
        pools.reserve,
        pools.surplus,
        pools.fee_coll,
        pools.fee_lusd,
    ]
}

/// Collateral, debt, stake, and the marks of both sums.
pub fn trove(trove: &Trove) -> [u128; 5] {
    [
        u128::from(trove.coll),
        u128::from(trove.debt),
        u128::from(trove.stake),
        trove.mark_coll,
        trove.mark_debt,
    ]
}
