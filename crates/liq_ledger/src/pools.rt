//! What each pool holds: numbers alone, which the rules of the other crates move.

/// What each pool holds. Collateral is in gwei, debt and LUSD in micro-LUSD.
#[derive(Clone, Copy)]
pub struct Pools {
    /// What the troves have as of their owners' last operations.
    pub active_coll: u64,
    pub active_debt: u64,
    /// What was redistributed and is still pending.
    pub default_coll: u64,
    pub default_debt: u64,
    /// LUSD kept aside for whoever liquidates, of all troves.
    pub reserve: u64,
    /// Collateral that owners of closed troves may claim.
    pub surplus: u64,
    /// The fees of redemptions and of borrowings.
    pub fee_coll: u64,
    pub fee_lusd: u64,
}
