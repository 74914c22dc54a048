//! Victims: troves that are liquidated one after the other, as it was planned. The lowest of them,
//! what others follow of them, room for what they write, and their effect.
//!
//! Each victim leaves other totals, other sums and another pool for the next, and perhaps the other
//! mode. A plan goes along these without a change, and then the victims are struck in the same
//! order, without memory.
#![tactic(auto)]

mod course;
mod liquidations;
mod lowest;

pub use course::Course;
pub use liquidations::{CallEvents, lowest_done, reserve_owners, strike};
pub use lowest::plan_victims;
