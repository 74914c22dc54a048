//! Rules for the bytes of a checkpoint, by which they are read and written: the name that they
//! begin with, which key may stand behind the one before it, and where a fault is told.
#![tactic(auto)]

mod keys;
mod names;
mod places;

pub use keys::{epoch_follows, follows, place_follows};
pub use names::name;
pub use places::{place_of, place_of_empty_wallet};
