//! Where each account stands in the ordered list, and where it will after the changes that are
//! being followed.
//!
//! An account is in one of three states:
//!
//! ```text
//! out       it has no key, and nothing is noted of it: it stands nowhere
//! kept      a key in 8 bytes, in a table by account; nothing is noted of it
//! apart     in a map: its key does not fit 8 bytes, or the key to come is noted beside it
//! ```
//!
//! `aim` notes the key to come, and may want memory; `settle` makes it the key, and takes none. So
//! changes that cannot all be noted are given up, and nothing has moved.
#![tactic(auto)]

mod key_index;
mod short_key;

pub use key_index::{AccountKey, KeyIndex};
pub use short_key::ShortKey;
