//! The scripts of all sessions, served at once by one book over an opened store; and whole, from
//! the lines of an input to the history that is written. This is the word `serve`; `liq_serve` is
//! the whole program.
//!
//! ```text
//! lines --> scripts --> store opened --> service, a seat and a finder for each session
//!       --> all sessions at once --> all seats back: service closed, store closed --> history
//! ```
//!
//! The history is one along which the protocol for one thread gives the same replies, and each
//! session's part of it is its lines in order.
#![tactic(auto)]

mod input;
mod seats;
mod served;
mod serving;

pub use input::{Finish, Finished, serve_input};
pub use served::{End, Served};
pub use serving::serve_sessions;
