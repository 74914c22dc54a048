//! Reward units that depositors of the Stability Pool earn by time: an account beside the protocol,
//! with the law that what each has earned is its exact share but for a stated allowance.
//!
//! Units are issued by the minute, and shared by the deposits as they are then. What cannot be
//! shared stays unshared, and all units are the one or the other.
#![tactic(auto)]

mod earner;
mod issuance;
pub mod laws;
mod lines;
mod rewards;
mod rows;
mod sharing;

pub use issuance::{EVENTS_MOST, SHARED_LEAST, UNITS_AT_FIRST, UNITS_MOST, YEAR, YEARS, issued};
pub use lines::{BadTagLine, TagLine, read_tag_line};
pub use rewards::{RewardRow, Rewards};
