//! What the protocol answers.

use std::alloc::AllocError;

/// There was no memory for it, and nothing changed.
#[derive(Clone, Copy)]
pub struct NoMemory;

impl From<AllocError> for NoMemory {
    fn from(_: AllocError) -> NoMemory {
        NoMemory
    }
}

/// An accepted command: its verb's place in the list of verbs, from 1, and the values that its
/// reply shows, unused ones 0.
#[derive(Clone, Copy, PartialEq, Eq)]
pub struct Done {
    pub kind: u8,
    pub values: [u64; 6],
}

/// The answer to a query.
#[derive(Clone, Copy, PartialEq, Eq)]
pub enum Info {
    /// Collateral (gwei) and LUSD (micro-LUSD) of a wallet.
    Wallet { coll: u64, lusd: u64 },
    /// The entire collateral and debt of a trove, and its stake.
    Trove { coll: u64, debt: u64, stake: u64 },
    /// The account has no trove.
    NoTrove,
    /// The balance of a deposit (micro-LUSD) and its gain (gwei).
    Deposit { balance: u64, gain: u64 },
    /// The account has no deposit.
    NoDeposit,
    /// Active collateral and debt, default collateral and debt, reserve, surplus, fee collateral
    /// and LUSD, the Stability Pool's LUSD and collateral.
    Pools { pools: [u64; 10] },
    /// Price, minute, base rate, minute of the last fee, 1 in Recovery Mode, troves, stakes,
    /// collateral, debt, records.
    System { words: [u64; 10] },
    /// The number of a client's next new command.
    Next { number: u64 },
}

/// Why a command or a query was refused. Its fields are printed in their order behind its code.
#[derive(Clone, Copy, PartialEq, Eq)]
pub enum Refusal {
    /// 10: the price is outside its limits.
    PriceRange {
        price: u64,
    },
    /// 11: an amount that must not be 0 is 0.
    AmountZero,
    /// 12: a sum or a count would pass its limit.
    AmountLimit {
        sum: u128,
        limit: u64,
    },
    /// 13: an account or a client is not below [`crate::amounts::ACCOUNTS`]; the first one of the
    /// line.
    AccountRange {
        value: u32,
    },
    /// 14: more collateral is needed than there is.
    ShortCollateral {
        need: u64,
        have: u64,
    },
    /// 15: more LUSD is needed than the wallet has.
    ShortTokens {
        need: u64,
        have: u64,
    },
    /// 20: the account has a trove already.
    TroveExists {
        account: u32,
    },
    /// 21: the account has no trove.
    NoTrove {
        account: u32,
    },
    /// 22: the fee bound is above one or below the least rate.
    FeeBound {
        bound: u64,
        least: u64,
    },
    /// 23: the fee is above its bound: `fee * 10^18` is above `bound * amount`.
    FeeOver {
        left: u128,
        right: u128,
    },
    /// 24: the debt beside the reserve would be too low.
    NetDebtLow {
        net: u64,
        least: u64,
    },
    /// 25: the trove's ratio would be too low: `left` is collateral (gwei) * price * 100, and
    /// `right` the least percent * debt (micro-LUSD) * 10^9.
    RatioLow {
        left: u128,
        right: u128,
    },
    /// 26: the ratio of the totals would be too low, by the same two sides.
    SystemRatioLow {
        left: u128,
        right: u128,
    },
    /// 27: Recovery Mode forbids the command: the two sides of the totals as they are.
    RecoveryForbids {
        left: u128,
        right: u128,
    },
    /// 28: the trove's ratio would fall, in Recovery Mode: `left`, the new collateral times the old
    /// debt, is below `right`, the old collateral times the new debt.
    RatioFalls {
        left: u128,
        right: u128,
    },
    /// 29: both ways at once: collateral in and out, or debt up and down.
    BothWays {
        first: u64,
        second: u64,
    },
    /// 30: nothing would change.
    NoChange,
    /// 31: the last trove stays.
    LastTrove {
        troves: u64,
    },
    /// 40: the account has no deposit.
    NoDeposit {
        account: u32,
    },
    /// 41: the last trove of the list is below the least ratio.
    TroveUnder {
        account: u32,
        left: u128,
        right: u128,
    },
    /// 42: the account has no gain.
    NoGain {
        account: u32,
    },
    /// 50: the trove may not be liquidated.
    NotLiquidatable {
        coll: u64,
        debt: u64,
        price: u64,
        total_coll: u64,
        total_debt: u64,
    },
    /// 51: the Stability Pool holds less than the trove's debt.
    PoolTooSmall {
        total: u64,
        debt: u64,
    },
    /// 52: a sum per stake would pass its limit.
    SumLimit {
        sum: u128,
    },
    /// 60: it is too early to redeem.
    Bootstrap {
        minute: u64,
        limit: u64,
    },
    /// 61: the ratio of the totals is below the least ratio, by the same two sides.
    SystemUnder {
        left: u128,
        right: u128,
    },
    /// 62: nothing could be redeemed.
    NothingRedeemed {
        amount: u64,
        net: u64,
    },
    /// 63: the fee would eat all that is drawn.
    FeeEatsAll {
        fee: u64,
        drawn: u64,
    },
    /// 64: the account has no surplus.
    NoSurplus {
        account: u32,
    },
    /// 70: the number is neither the client's last nor its next.
    OutOfTurn {
        expected: u64,
    },
    /// 81: the journal is full.
    JournalFull {
        records: u64,
    },
}

/// The protocol's reply to a request.
#[derive(Clone, Copy, PartialEq, Eq)]
pub enum Reply {
    Said(Done),
    Told(Info),
    No(Refusal),
}

/// What a service answers: the protocol's reply, or why there is none.
#[derive(Clone, Copy, PartialEq, Eq)]
pub enum Answer {
    Reply(Reply),
    NoMemory,
    DiskFault,
    /// An earlier call met a disk fault; the disks' faults then.
    Stopped { faults: u64 },
    /// The history has as many entries as it may.
    HistoryFull { entries: u64 },
}
