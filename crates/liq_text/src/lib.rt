//! Lines of text: the grammar of requests, read and written, and the texts of replies. A line is
//! read exactly where the grammar has it, and then spells one request: words with one space
//! between, numbers in digits without a leading zero. The ranges of the numbers are for the rules
//! to test.
#![tactic(auto)]

mod appending;
mod bad_line;
mod calls;
pub mod laws;
mod lines;
mod names;
mod pieces;
mod queries;
mod replies;
mod requests;
mod values;
mod writing;

pub use appending::{append_line, append_number, append_numbers};
pub use bad_line::BadLine;
pub use lines::{read_line, read_query, read_session_line};
pub use pieces::four_words;
pub use replies::write_reply;
pub use requests::write_request;
pub use values::{read_account, read_number};
