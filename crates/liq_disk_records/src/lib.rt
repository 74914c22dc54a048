//! Commands and their records: how one is written, and how those of a journal are made again. And
//! what decides which disk, of which generation and limit, goes on.
//!
//! A record is written before its command is answered and before it is made. A replay makes the
//! commands of all records, in order; the first that the rules refuse, or that comes again, damages
//! the disk at its number.
#![tactic(auto)]

mod again;
mod answers;
mod choosing;
mod reading;
mod turning;
mod writing;

pub use again::replay;
pub use answers::AcceptedFault;
pub use choosing::{is_of, later_side};
pub use turning::begin_generation;
pub use writing::write_record;
