//! How a word of the program ends: why it stops, the status and the last line of that, a text that
//! is written whole, a store that is closed, and a look whether a source goes on past what is taken
//! of it.
//!
//! Status 0 is all done, and each of 1 to 9 a kind of cause. At all but 0 and 4, where the sink is
//! at fault, a last line tells the cause.
#![tactic(auto)]

mod ending;
mod further;
mod halts;
pub mod laws;
mod texts;

pub use ending::{
    Ending, end_with_store, end_without_store, status, tell_last, write_last, write_usage,
};
pub use further::look_further;
pub use halts::{Halt, end_of_feed, has_all_commands};
pub use texts::{write_rest, write_text};
