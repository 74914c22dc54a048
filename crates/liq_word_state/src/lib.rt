//! The words `state`, `report`, `audit`, `staking` and `rewards`: what stands on two disks, what
//! their commands give each depositor, and what stakers have of their fees and depositors of the
//! rewards, told. And what stands in a protocol, told.
//!
//! The store is opened as `run` opens it, told, and closed again. A text is made whole before its
//! first byte is written.
#![tactic(auto)]

mod answers;
mod audit;
mod journal;
mod report;
mod state;
mod telling;

pub use answers::Asked;
pub use state::write_standing;
pub use telling::{Text, tell_on};
