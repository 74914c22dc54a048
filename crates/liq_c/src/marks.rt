//! What stands in a place that has a market.

/// `liq open` in its eight bytes: in memory that nobody cleared it is hardly ever found.
pub const OPEN: u64 = 0x6c69_7120_6f70_656e;
