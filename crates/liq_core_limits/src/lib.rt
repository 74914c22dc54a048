//! Which command acts, by its number, and what a generation of the journal takes: how much
//! collateral, how many records, what a rotation makes of it, and how many clients its checkpoint
//! counts.
//!
//! A client's row has the number of its last accepted command and the reply to it. By its number a
//! command
//!
//! ```text
//! last        is a repetition: the kept reply is said again, and no step is made
//! last + 1    is the next one: the rules decide
//! any other   is refused
//! ```
#![tactic(auto)]

mod clients;
mod generation;
mod numbers;

pub use clients::clients_with;
pub use generation::Generation;
pub use numbers::repeated_reply;
