//! The sums per unit of stake.

/// What a table of troves keeps beside its rows: the sums per unit of stake, and the stakes.
#[derive(Clone, Copy)]
pub struct Sums {
    /// Gwei redistributed to each unit of stake, over 10^18.
    pub coll: u128,
    /// Micro-LUSD redistributed to each unit of stake, over 10^18.
    pub debt: u128,
    /// The stakes of all troves.
    pub stakes: u64,
    /// The stakes as of the last liquidation.
    pub snap_stakes: u64,
    /// All collateral as of the last liquidation, in gwei.
    pub snap_coll: u64,
}
