//! A lock round a value that keeps a history, as the book of a service does: items are added and
//! none is taken away.
//!
//! A lock is made with a number of seats. A seat takes the value, works on it, adds items to its
//! history and gives it back:
//!
//! ```text
//!          take: draw a ticket           its turn comes: the value is taken out
//! at rest ---------------------> waits -----------------------------------------> inside
//!    ^                                                                              |
//!    +------- give: put the value back, count its new items, end the turn ----------+
//! ```
//!
//! Turns come in the order of the tickets. There is one history, and what each seat has seen is a
//! beginning of it; at the end of its own turn a seat has seen all of it. While no seat is inside,
//! the lock holds the value; else the seat that is inside has it. Of the calls only `Lock::take`
//! waits.
#![tactic(auto)]

mod chronicle;
mod laws;
mod lock;
mod rule;
mod seat;
mod view;

pub use chronicle::Chronicle;
pub use laws::rule_in_sentences;
pub use lock::{Held, Lock, StillShared};
pub use seat::LockSeat;
pub use view::{Past, View};
