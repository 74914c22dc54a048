//! What a redemption takes of a trove.

/// What a redemption takes of a trove.
#[derive(Clone, Copy)]
pub struct Cut {
    pub account: u32,
    /// Debt that is redeemed, in micro-LUSD.
    pub lot: u64,
    /// Collateral that is drawn for it, in gwei.
    pub draw: u64,
    /// Whether the trove is closed.
    pub full: bool,
}
