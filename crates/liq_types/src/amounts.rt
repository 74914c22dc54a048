//! The constants of the rules, each with its unit.

/// One, as a rate: rates are whole numbers over 10^18.
pub const ONE: u64 = 1_000_000_000_000_000_000;

/// The most collateral that may be inside the system (gwei), and the most LUSD that may be in
/// circulation (micro-LUSD). No protocol has a greater limit.
pub const LIM: u64 = 10_000_000_000_000_000_000;

/// The limit of a protocol whose journal is of version 1, until a rotation: a tenth of [`LIM`].
pub const LIM_OF_VERSION_1: u64 = 1_000_000_000_000_000_000;

/// The least price, in micro-LUSD per ether.
pub const PRICE_LEAST: u64 = 100_000_000;

/// The greatest price, in micro-LUSD per ether.
pub const PRICE_MOST: u64 = 1_000_000_000_000;

/// The price that the protocol opens with, in micro-LUSD per ether.
pub const PRICE_OPENING: u64 = 1_000_000_000;

/// The last minute.
pub const MINUTE_MOST: u64 = 1_000_000_000_000;

/// The least ratio of a trove's collateral to its debt, in percent: below it the trove may be
/// liquidated.
pub const MCR: u64 = 110;

/// The critical ratio of all collateral to all debt, in percent: below it Recovery Mode holds.
pub const CCR: u64 = 150;

/// What a trove's owner borrows beside the rest, in micro-LUSD. It is kept aside and pays whoever
/// liquidates the trove.
pub const RESERVE: u64 = 200_000_000;

/// The least debt of a trove beside its reserve, in micro-LUSD.
pub const MIN_NET: u64 = 1_800_000_000;

/// The least fee rate, over 10^18.
pub const FLOOR_RATE: u64 = 5_000_000_000_000_000;

/// The greatest rate of a borrowing fee, over 10^18.
pub const MAX_BORROW_RATE: u64 = 50_000_000_000_000_000;

/// What the base rate keeps of itself in a minute, over 10^18: half of it in twelve hours.
pub const DECAY: u64 = 999_037_758_833_783_000;

/// The first minute in which LUSD may be redeemed.
pub const BOOTSTRAP: u64 = 20_160;

/// The Stability Pool's product at the start and after an epoch's end, over 10^18.
pub const P_OPENING: u128 = 1_000_000_000_000_000_000;

/// The least product of the Stability Pool, over 10^18.
pub const P_LEAST: u128 = 1_000_000_000;

/// The most steps of 10^9 by which one offset raises the scale, since no pool has more than
/// [`LIM`].
pub const RISES_MOST: u64 = 3;

/// The most gwei that an offset brings for each micro-LUSD that it takes over: what is liquidated
/// for the Stability Pool is worth at most 110 percent of its debt, and the price is at least
/// [`PRICE_LEAST`].
pub const OFFSET_MOST: u64 = 11;

/// The liquidator of a trove gets its collateral divided by this.
pub const GAS_PART: u64 = 200;

/// Divided by the price, the gwei that are worth 110 percent of one micro-LUSD.
pub const CAP_WORTH: u64 = 1_100_000_000;

/// The greatest sum per unit of stake, over 10^18.
pub const SUM_MOST: u128 = 10_000_000_000_000_000_000_000_000_000_000_000_000;

/// Accounts and clients are numbers below this.
pub const ACCOUNTS: u32 = 1_048_576;

/// The most troves that one `liquidate_lowest` takes.
pub const LOWEST_MOST: u64 = 64;

/// The most accepted commands between two rotations.
pub const RECORDS_MOST: u64 = 1_000_000;

/// By how much one accepted command may raise the scale or the epoch of the Stability Pool, at
/// most: 64 liquidations, each by less than this many 64ths.
pub const PLACES_A_RECORD: u64 = 200;

/// The greatest generation of the journal.
pub const GENERATIONS_MOST: u64 = 68_719_476_736;

/// The most bytes of a checkpoint.
pub const CHECKPOINT_BYTES_MOST: u64 = 68_719_476_736;

/// The greatest number of a client's command.
pub const NUMBER_MOST: u64 = 18_446_744_073_709_551_615;

/// The most lines that one run answers.
pub const LINES_MOST: u64 = 1_000_000;

/// The most bytes of a line, its line end not counted.
pub const LINE_BYTES: usize = 200;

/// The most bytes of a reply's text, its line end not counted.
pub const REPLY_BYTES: usize = 255;
