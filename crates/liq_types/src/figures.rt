//! Amounts that belong together: what is kept of a trove, a deposit, a wallet and a client, and
//! what a rule reads of the whole market.

use crate::replies::Done;

/// What an account has outside troves and deposits: collateral in gwei, LUSD in micro-LUSD.
#[derive(Clone, Copy)]
pub struct Wallet {
    pub coll: u64,
    pub lusd: u64,
}

/// What is kept for a client, so that a command that comes again acts once: the last number that
/// was accepted, 0 for none, and the reply to it.
#[derive(Clone, Copy)]
pub struct Client {
    pub last: u64,
    pub kept: Done,
}

/// What the rules on troves read of a state.
#[derive(Clone, Copy)]
pub struct Market {
    /// Micro-LUSD per ether.
    pub price: u64,
    pub minute: u64,
    /// The base rate as of its minute, over 10^18.
    pub base: u64,
    /// The minute of the last fee.
    pub fee_minute: u64,
    /// The most collateral that may be inside, and the most LUSD.
    pub limit: u64,
    /// Active and default collateral, in gwei.
    pub total_coll: u64,
    /// Active and default debt, in micro-LUSD.
    pub total_debt: u64,
    pub troves: u64,
}

/// A trove as it is kept: the amounts and the stake as of its owner's last operation, and the sums
/// per stake of that moment.
#[derive(Clone, Copy)]
pub struct Trove {
    /// Gwei.
    pub coll: u64,
    /// Micro-LUSD.
    pub debt: u64,
    pub stake: u64,
    /// Gwei per unit of stake, over 10^18.
    pub mark_coll: u128,
    /// Micro-LUSD per unit of stake, over 10^18.
    pub mark_debt: u128,
}

/// A deposit as it is kept: the amount as of its owner's last operation, and the Stability Pool's
/// words of that moment.
#[derive(Clone, Copy)]
pub struct Deposit {
    /// Micro-LUSD.
    pub amount: u64,
    pub p: u128,
    pub sum: u128,
    pub scale: u64,
    pub epoch: u64,
}
