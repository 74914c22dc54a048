//! A reply in 96 bytes, as it lies in memory: its layout is that of C.

/// The command was accepted, now or before.
pub const ACCEPTED: u8 = 1;

/// The query was answered.
pub const TOLD: u8 = 2;

/// The command or the query was refused.
pub const REFUSED: u8 = 3;

/// There was no command or query.
pub const BAD: u8 = 4;

/// There was no memory, and nothing changed.
pub const NO_MEMORY: u8 = 5;

/// A reply as it lies in memory, without a gap.
#[repr(C)]
#[derive(Clone, Copy)]
pub struct Reply96 {
    /// What kind of reply: [`ACCEPTED`], [`TOLD`], [`REFUSED`], [`BAD`] or [`NO_MEMORY`].
    pub kind: u8,
    /// The place of the command's verb in the list of verbs or of what a query asks in the list of
    /// queries, from 1, or the refusal's code; else 0.
    pub which: u8,
    /// How many numbers there are: none where there is no trove or deposit.
    pub count: u8,
    /// Always 0.
    pub zero: [u8; 5],
    /// The numbers, and noughts behind them. A number is one word; in a refusal it is two, the low
    /// one first.
    pub values: [u64; 11],
}
