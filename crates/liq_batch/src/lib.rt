//! Many commands, queries or lines over one market, one after the other: slices in, slices out.
//!
//! A batch stops at the first item that is none, or for which there is no memory: those before it
//! are answered, each at its index; that one changes nothing, and its place says why; and behind it
//! no place is written.
#![tactic(auto)]

mod batch;
mod commands;
mod lines;
mod numbering;
mod previews;
mod queries;

pub use batch::{Batch, Command96, Fault, Query64};
pub use commands::do_all;
pub use lines::{LINE_MOST, LineFault, Lines, answer_lines};
pub use numbering::next_all;
pub use previews::preview_all;
pub use queries::ask_all;
