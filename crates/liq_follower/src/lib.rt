//! A replica of the protocol that is fed the bytes of a journal of the first generation, in pieces
//! of any size. It holds no more of them than one header or one record that isn't whole.
//!
//! ```text
//! Start -- gate 1 --> Header -- right --> Gate -- gate 1 --> Inside -- right --> Gate, a step made
//!   |                   |                  |                   |
//!   | other gate        | a fault          | other gate        | a fault, or a refused command
//!   v                   v                  v                   v
//! Shut                Damaged, Rotated   Shut                Damaged
//! ```
//!
//! `Shut` takes all further bytes, which mean nothing; `Damaged` and `Rotated` take none. In each
//! phase the replica stands for the state to which the bytes lead that it took; behind one that
//! shows a fault, for that to which those before it lead. Into which pieces they were cut changes
//! nothing.
#![tactic(auto)]

mod answers;
mod follower;
mod header;
mod held;
pub mod laws;
mod phase;
mod record;

pub use answers::{Fed, FedEnd};
pub use follower::Follower;
