//! The program: from the words and the bytes that come in to the bytes that go out.
//!
//! ```text
//! words --> run, serve, state, report, audit, staking, rewards, follow, gen --> status, last line
//!               |
//!           input, output, two disks
//! ```
//!
//! The top call stands here, and its contract is what is promised of the whole program: what each
//! status says of each word, what has been written and what the disks hold by then, and what a stop
//! at any moment leaves of them. `serve`, one of the words, is `liq_word_serve`.
#![tactic(auto)]

mod answers;
pub mod laws;
mod serve;
mod top;

pub use liq_sessions::OpenGate;
pub use liq_text_rewards::rewards_text;
pub use liq_word_line::takes_disks;
pub use top::{Ended, protocol, without_threads, without_words};
