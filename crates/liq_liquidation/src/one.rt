//! What becomes of a liquidated trove.

/// What becomes of a liquidated trove. Collateral is in gwei, debt in micro-LUSD.
#[derive(Clone, Copy)]
pub struct One {
    /// Collateral for the liquidator.
    pub gas: u64,
    /// Debt that the Stability Pool takes over.
    pub offset_debt: u64,
    /// Collateral for the Stability Pool.
    pub offset_coll: u64,
    /// Debt for the other troves.
    pub spread_debt: u64,
    /// Collateral for the other troves.
    pub spread_coll: u64,
    /// Collateral that its owner may claim.
    pub surplus: u64,
}

/// A trove that is liquidated, and what becomes of it.
#[derive(Clone, Copy)]
pub struct Victim {
    pub account: u32,
    pub one: One,
}
