//! What may be asked of the protocol.

use crate::hints::HintWords;

/// A call under its client's number, which makes it act once however often it comes.
#[derive(Clone, Copy, PartialEq, Eq)]
pub struct Command {
    /// Who sends it. A client at or above [`crate::amounts::ACCOUNTS`] is refused.
    pub client: u32,
    /// The client's number for it: the first is 1, and each accepted one is followed by the next.
    pub number: u64,
    pub call: Call,
}

/// A call that may change the protocol. Collateral is in gwei, LUSD in micro-LUSD, fee bounds over
/// 10^18.
#[derive(Clone, Copy, PartialEq, Eq)]
pub enum Call {
    /// Sets the price, in micro-LUSD per ether.
    Price(u64),
    /// Lets minutes pass.
    Advance(u64),
    /// Brings collateral from outside into an account's wallet.
    Fund(u32, u64),
    /// Takes collateral from an account's wallet to the outside.
    Take(u32, u64),
    /// Sends LUSD from the first account to the second.
    Send(u32, u32, u64),
    /// Opens a trove: account, collateral, LUSD to borrow, fee bound, hint.
    Open(u32, u64, u64, u64, HintWords),
    /// Changes a trove: account, collateral in, collateral out, LUSD to borrow, LUSD to repay, fee
    /// bound, hint.
    Adjust(u32, u64, u64, u64, u64, u64, HintWords),
    /// Repays an account's trove and closes it.
    Close(u32),
    /// Puts an account's LUSD into the Stability Pool.
    Provide(u32, u64),
    /// Takes an account's LUSD out of the Stability Pool.
    Withdraw(u32, u64),
    /// Moves an account's gain from the Stability Pool into its trove.
    GainToTrove(u32, HintWords),
    /// Liquidates a trove: liquidator, owner.
    Liquidate(u32, u32),
    /// Liquidates the troves of the lowest ratios: liquidator, how many at most.
    LiquidateLowest(u32, u64),
    /// Redeems an account's LUSD for collateral: account, LUSD, fee bound, hint.
    Redeem(u32, u64, u64, HintWords),
    /// Moves an account's surplus to its wallet.
    Claim(u32),
    /// Begins the next generation of the journal.
    Rotate,
}

/// A question, which changes nothing.
#[derive(Clone, Copy, PartialEq, Eq)]
pub enum Query {
    /// What an account's wallet holds.
    Wallet(u32),
    /// An account's trove.
    Trove(u32),
    /// An account's deposit in the Stability Pool.
    Deposit(u32),
    /// What each pool holds.
    Pools,
    /// Price, time, mode and totals.
    System,
    /// The number that a client's next new command has.
    NextNumber(u32),
}

/// One line of input.
#[derive(Clone, Copy, PartialEq, Eq)]
pub enum Request {
    Do(Command),
    Ask(Query),
}
