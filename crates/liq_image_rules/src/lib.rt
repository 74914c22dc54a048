//! The eleven rules of a sound image, tested one after the other: those over its numbers and over
//! what is pending here, the others over its rows. An image that breaks none, with its tables in
//! form, is one that the protocol may go on from. Nothing here takes memory, and any image may be
//! asked: a sum that doesn't fit 128 bits breaks the rule that it is part of.
#![tactic(auto)]

mod backing;
mod ranges;
mod rules;

pub use liq_image_rows::entries;
pub use rules::first_unsound;
