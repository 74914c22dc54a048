//! What stakers ask beside a journal's commands, and are answered, as a text. The commands are
//! replayed, and each pays its fee. A line's change is made behind the record that it names; one
//! that names an earlier record than a line before it is refused.
#![tactic(auto)]

mod answering;
pub mod examples;
mod journal;
pub mod laws;
mod paid;
mod told;

pub use journal::staked;
pub use told::OutOfPlace;
