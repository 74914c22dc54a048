//! One history for all sessions: a book in which every call is entered that a store answers, under
//! a lock at which each session has a seat.
//!
//! ```text
//! seat 1 --+              +-- store       answers the call
//! seat 2 --+-- a lock --> +-- entries     the call and its reply, behind all before it
//!  ..      |    the book  +-- publisher   told what the list has become, in a turn of its own
//! seat n --+
//! ```
//!
//! Each reply is that of the rules after all entries before it. A book goes on, or is stopped for
//! good:
//!
//! ```text
//! going -- a call meets a disk's fault --> halted: every later call is told of it
//!       -- the most entries are there  --> full: no call is answered any more
//! ```
#![tactic(auto)]

mod book;
mod boxed;
mod entering;
mod items;
mod kinds;
pub mod laws;
mod origin;
mod publishing;
mod seat;
mod service;

pub use book::{Book, History};
pub use items::{ENTRIES_MOST, Halt, Item};
pub use liq_types::Entry;
pub use liq_views::Publication;
pub use origin::Origin;
pub use publishing::Publishing;
pub use seat::BookSeat;
pub use service::{Closed, Service, StillOut};
