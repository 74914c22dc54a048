//! The plain data that every crate of liq speaks of: requests, replies, refusals, amounts and their
//! limits. Nothing here decides anything: the rules stand in `liq_rule_step`.
//!
//! Debt and LUSD are in micro-LUSD, collateral in gwei, the price in micro-LUSD per ether, time in
//! whole minutes, and a fraction in 10^18ths.
//!
//! A `Request` is a `Command`, which is a `Call` with its client and its number, or a `Query`. A
//! desk answers it, by a `Reply` of the rules or by what kept it from one (`Answer`).
//!
//! An `Image` is all of a state on which its future rests, but for the count of its records.
#![tactic(auto)]

pub mod amounts;
pub mod codes;
pub mod counting;
pub mod desks;
pub mod entries;
pub mod events;
pub mod figures;
pub mod hints;
pub mod image;
pub mod laws;
pub mod lengths;
pub mod replies;
pub mod requests;
pub mod seq;

pub use codes::{code_of, numbers_of, value_count};
pub use counting::Steps;
pub use desks::{Desk, Hinter};
pub use entries::Entry;
pub use events::{ListChange, PoolEvent};
pub use figures::{Client, Deposit, Market, Trove, Wallet};
pub use hints::{Hint, HintWords};
pub use image::{
    ClientRow, ClientRows, DepositRow, DepositRows, FinishedRows, FinishedSum, Image, ImageRow,
    ImageRows, SurplusRow, SurplusRows, TroveRow, TroveRows, WalletRow, WalletRows,
};
pub use lengths::RowCounts;
pub use replies::{Answer, Done, Info, NoMemory, Refusal, Reply};
pub use requests::{Call, Command, Query, Request};
pub use seq::Seq;
