//! The rewards of a journal's depositors, and what they and their front ends keep of them, as a
//! text.
#![tactic(auto)]

mod followed;
mod happened;
mod journal;
pub mod laws;
mod owners;
mod tags;
mod text;
mod told;

pub use journal::rewarded;
pub use tags::TagRefusal;
pub use text::rewards_text;
