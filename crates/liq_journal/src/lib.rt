//! A journal on one disk: a header, a checkpoint, and records, each a gate byte, 96 bytes of a
//! command and their digest. Headers of both versions are read, and version 2 alone is written.
//!
//! ```text
//! | gate | header | checkpoint | gate | command | digest | gate | command | digest | gate |
//!   1: open                      1                         1                         0: the end
//! ```
//!
//! A disk is in one of three states. Its bytes alone say which, whatever happened to it:
//!
//! ```text
//! absent     it is shorter than any header, or the first gate isn't open
//! damaged    the first gate is open, and the header, the checkpoint's digest or a record that
//!            counts is wrong: the first fault is told
//! open       all of them are right; records count up to the first whose gate isn't open
//! ```
//!
//! Whatever is written stands behind a shut gate until it is synced whole. Then one byte opens the
//! gate, and is synced too. So a crash in an append leaves the records before it or with the new
//! one, and a crash in a creation the journal that the disk had, none, or the new one.
#![tactic(auto)]

mod answers;
mod block;
mod bytes;
mod create;
mod damage;
mod gate;
mod header;
mod journal;
mod looking;
mod open;
mod reads;
mod records;
mod scanned;

pub use answers::{CreateFault, DiskFault, Look, LookFault, OpenFault, OpenWhy};
pub use block::Block;
pub use damage::{Damage, What};
pub use journal::Journal;
pub use liq_disk_header::header_size;
pub use looking::look;

pub mod laws;
