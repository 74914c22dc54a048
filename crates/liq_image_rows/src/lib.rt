//! The rows of an image's tables: the rules of a sound image that are over rows, tested, and the
//! rows as entries. The tests take no memory, and any image may be asked: a sum that doesn't fit
//! 128 bits breaks the rule that it is part of.
#![tactic(auto)]

mod accounts;
mod clients;
mod conserved;
pub mod entries;
mod finished;
mod pool;
mod troves;

pub use accounts::has_accounts;
pub use clients::has_sound_clients;
pub use conserved::{has_coll_at_home, has_lusd_at_home, has_surplus_at_home};
pub use pool::{has_sound_deposits, has_sound_words};
pub use troves::{has_sound_troves, has_troves_added_up};
