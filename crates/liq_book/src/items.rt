//! What the chronicle of a book has.

use liq_types::{Entry, Request};

/// The most entries of a book.
pub const ENTRIES_MOST: usize = 1_000_000;

/// The end of a service: the call that met a fault of a disk.
#[derive(Clone, Copy)]
pub struct Halt {
    pub session: u8,
    pub request: Request,
    /// The sum of both disks' faults after that call, which every later call is told.
    pub faults: u64,
}

/// What the chronicle of a book has: entries, and behind them the halt, once there is one.
#[derive(Clone, Copy)]
pub enum Item {
    Entry(Entry),
    Halt(Halt),
}
