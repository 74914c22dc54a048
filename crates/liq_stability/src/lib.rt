//! The Stability Pool: its words, its deposits and what each is worth.
//!
//! An offset takes a part of all deposits and gives them collateral, and writes no deposit: it
//! changes the words. `p` is what is left of a whole deposit, `sum` what a whole deposit has
//! gained. Where `p` would have too few digits it is raised by 10^9, and the next scale begins;
//! where the pool is emptied, the next epoch does:
//!
//! ```text
//! epoch 0     scale 0 -> scale 1 -> ..     each with a sum of its own
//!    | the pool is emptied
//! epoch 1     scale 0 -> ..                p is whole again; older deposits have their gains alone
//! ```
//!
//! A deposit keeps the words as of its owner's last operation, and is read by them. The sum of a
//! scale that was left stays among the finished sums, for the deposits that began there. Along
//! events that a market can bring, no balance and no gain is more than the exact share, and each
//! falls short of it by a stated allowance at most.
#![tactic(auto)]

mod deposits;
pub mod examples;
pub mod laws;
mod offsets;
mod positions;
mod words;

pub use deposits::Stability;
pub use liq_types::{Deposit, FinishedSum};
pub use offsets::offset_words;
pub use positions::position;
pub use words::PoolWords;
