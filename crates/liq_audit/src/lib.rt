//! The audit: whole numbers that enclose each account's exact share of the Stability Pool, and by
//! how much the pool's own balances and gains may fall short of it.
//!
//! An exact share is a fraction whose digits grow with each offset. So each account has two whole
//! numbers for its balance and two for its gain, rounded down and up at each event, between which
//! the exact ones lie; and an allowance, which grows with the offsets that it went through.
#![tactic(auto)]

mod auditor;
mod enclosure;
pub mod examples;
pub mod laws;
mod rows;
mod watcher;

pub use auditor::audit;
pub use rows::{ACCOUNTS_MOST, AuditFault, EngineRow, OFFSETS_MOST, Row};
