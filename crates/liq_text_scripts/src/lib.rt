//! What sessions ask and what they are answered: the scripts of eight sessions, read from the lines
//! of a source, and a history, written to a sink.
//!
//! ```text
//! in    a line: session, request      each goes behind its session's script, in the order of lines
//! out   session by session its replies, and behind them all the one history, entry by entry
//! ```
#![tactic(auto)]

mod entries;
mod input;
mod outbox;
mod output;
mod scripts;

pub use input::read_scripts;
pub use liq_text_gather::Stop;
pub use outbox::Outbox;
pub use output::{ShownEntry, write_served};
