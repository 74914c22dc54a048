//! A market in memory: the protocol, which answers requests one after the other by the rules, with
//! no journal and no disks. It is forked, saved as bytes and loaded again, and tells which accounts
//! have troves, deposits or wallets.
//!
//! A call either answers by the step of the rules or wants memory, and then all is as before. What
//! is loaded is a sound image with its records, exactly where the bytes are what such a market
//! saves.
#![tactic(auto)]

pub mod laws;
mod lists;
mod load_fault;
mod market;
mod saving;
mod touching;

pub use lists::AccountList;
pub use load_fault::LoadFault;
pub use market::Market;
