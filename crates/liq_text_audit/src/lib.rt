//! The audit of a list of commands, as a text: they are replayed from the opening, and what the
//! protocol then gives each depositor stands beside its exact share. Every row of it holds: that is
//! a law, and the last line counts it all the same.
#![tactic(auto)]

mod engine;
mod fault;
mod limits;
mod paid;
mod replaying;
mod reviewer;
mod shown;

pub use fault::ReviewFault;
pub use reviewer::review;
