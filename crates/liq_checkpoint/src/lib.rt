//! A state's image as bytes: the checkpoint with which each generation of the journal but the first
//! begins.
//!
//! ```text
//! name: the limit | 25 numbers | six tables, each a count and its rows in ascending keys
//! ```
//!
//! No two images have the same bytes, and bytes that are no image are told by the place of the
//! first fault. Whether an image is sound is not asked here: `liq_image_rules` does.
#![tactic(auto)]

mod decoding;
mod encoding;
mod entries;
mod entries_out;
mod image_bytes;
mod numbers;
mod numbers_out;
mod tables;
mod tables_out;

pub use decoding::decode;
pub use encoding::encode;
pub use image_bytes::ImageBytes;
