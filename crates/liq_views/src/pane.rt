//! A finder's way to what is published: a reader of the two copies, which never waits. A pane
//! without one is shut, and so may be one whose publisher has ended.

use crate::rule::{Published, Sight};
use crate::shelf::Shelf;
use left_right::reader::Reader;

mod enter;
mod look;
mod number;
mod window;

/// A window at what a publisher publishes.
#[derive(Drop)]
pub struct Pane {
    /// There is none where none was to be had: each look is then shut.
    reader: Option<Reader<Shelf, Sight, Published>>,
    /// How many looks were shut.
    shut: u64,
}
