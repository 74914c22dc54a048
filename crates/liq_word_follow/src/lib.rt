//! The word `follow`: a journal of the first generation that comes in, followed to its end, and
//! told is what stands there. The disks stay: the bytes are those of the input.
#![tactic(auto)]

mod feeding;
mod following;

pub use feeding::FED_MOST;
pub use following::follow_on;
