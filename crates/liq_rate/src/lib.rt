//! The base rate and the fees that rest on it.
//!
//! The rate is kept with the minute as of which it holds, and read as of now: it falls by a fixed
//! part with each minute that passed. A borrowing takes the fallen rate over; a redemption adds
//! half of the part of all debt that it redeems. A fee is the floor rate and the base rate
//! together, within its bound.
#![tactic(auto)]

pub mod examples;
mod rate;

pub use rate::{Rate, borrow_fee, redeem_fee};
