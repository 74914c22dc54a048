//! The ordered list a second time, as sorted entries, kept beside the protocol. It answers between
//! which accounts a trove stands or would stand, so that the protocol's own list, which is linked
//! and has no search, is asked with a tight hint.
//!
//! ```text
//! a command's changes --> follow --> entries by key     places: below, short, above
//!                                    key by account     stands
//! ```
//!
//! Between two calls each account that has a key stands in the list under that key, and no other
//! does. `follow` takes all changes of a command or, without memory, none. While it works an entry
//! may stand under its old and its new key at once; the notes in `stands` say which of the two
//! goes.
#![tactic(auto)]

mod entry_sets;
mod guide;
mod longs;
mod rows;
mod sides;

pub use guide::{Guide, last_put};
