//! What an owner asks, and what a plan gives.

use liq_rate::Rate;

/// What an owner asks of a trove. Collateral is in gwei, LUSD in micro-LUSD.
#[derive(Clone, Copy)]
pub struct Change {
    pub coll_in: u64,
    pub coll_out: u64,
    pub borrow: u64,
    pub repay: u64,
}

/// What a borrowing makes of a trove, and of the base rate.
#[derive(Clone, Copy)]
pub struct Plan {
    /// The trove's collateral after it, in gwei.
    pub coll: u64,
    /// The trove's debt after it, in micro-LUSD.
    pub debt: u64,
    /// The fee, in micro-LUSD; it is a part of the debt.
    pub fee: u64,
    pub rate: Rate,
}
