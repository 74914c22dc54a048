//! The report: a protocol's totals, its Stability Pool, and each trove and deposit as it stands, as
//! one text in JSON. It is that of each state for which the protocol stands: two protocols with the
//! same image and the same records have the same report. It is sent to be written piece by piece,
//! so that nothing is held but its text.
#![tactic(auto)]

mod entries;
pub mod laws;
mod objects;
mod text;
mod totals;

pub use text::report;
