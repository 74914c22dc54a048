//! The words of the Stability Pool.

use liq_types::amounts::P_OPENING;

/// The words of the Stability Pool. LUSD is in micro-LUSD, collateral in gwei.
#[derive(Clone, Copy)]
pub struct PoolWords {
    /// What is left of a whole deposit of this epoch, over 10^18, at the scale.
    pub p: u128,
    /// By how many steps of 10^9 the product was raised in this epoch.
    pub scale: u64,
    /// How many times the pool was emptied.
    pub epoch: u64,
    /// What a whole deposit gained at this scale, over 10^18.
    pub sum: u128,
    /// LUSD in the pool.
    pub total: u64,
    /// Collateral in the pool.
    pub coll: u64,
}

impl PoolWords {
    /// Those of a pool in which nothing has happened: the product is whole.
    pub const OPENING: PoolWords = PoolWords {
        p: P_OPENING,
        scale: 0,
        epoch: 0,
        sum: 0,
        total: 0,
        coll: 0,
    };
}
