//! The protocol over two disks: each command that is accepted is on a disk before it is answered,
//! and a stop at any moment leaves two disks from which the state before the call or after it is
//! opened again.
//!
//! ```text
//! two disks -- open --> going -- a call meets a disk's fault --> stopped
//!               |       |   ^                                       |
//!               |       +---+ every other call                      each later request is answered
//!               |                                                   `Stopped`, and changes nothing
//!               +--> damaged, or a fault: nothing is opened, and the disks are handed back
//! ```
//!
//! While it goes, the protocol has the journal's generation and as many records as it counts, and
//! behind the last one the disk has a shut gate. A rotation goes on on the other disk: `taken` is
//! the one with the journal, and `beside` the other, which is closed or older.
#![tactic(auto)]

mod answers;
mod checkpoint;
mod judging;
mod preparing;
mod reading;
mod rotating;
mod standing;
mod store;
mod telling;

pub use answers::{StoreFault, StoreWhy};
pub use liq_disk_pair::Side;
pub use liq_disk_records::AcceptedFault;
pub use store::Store;
