//! A reply in 96 bytes, as C reads it: eight small numbers and eleven words.
//!
//! ```text
//! 0     1      2      3           8                      96
//! kind, which, count, five zeros, eleven words of 64 bits
//! ```
//!
//! No two replies that show different things have the same bytes.
#![tactic(auto)]

mod encoding;
pub mod laws;
mod reply;

pub use encoding::{bad, encode, no_memory};
pub use reply::{ACCEPTED, BAD, NO_MEMORY, REFUSED, Reply96, TOLD};
