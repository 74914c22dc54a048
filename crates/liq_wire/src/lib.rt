//! A command in 96 bytes, which a journal keeps: written and read, both by one definition of its
//! fields.
//!
//! ```text
//! 0     4       8       16       20     24            64           68          72       96
//! kind, client, number, account, other, five amounts, hint before, hint after, all zero
//! ```
//!
//! Numbers have their high byte first, and a field that the kind does not use is 0. So no two
//! commands have the same bytes, but for the hint that is the greatest number: it is read as none.
#![tactic(auto)]

mod bad_place;
mod decoding;
mod encoding;
mod fields;
pub mod laws;

pub use bad_place::BadPlace;
pub use decoding::decode;
pub use encoding::encode;
