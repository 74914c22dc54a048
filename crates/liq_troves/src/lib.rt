//! The troves: entire amounts, stakes and the sums per unit of stake.
//!
//! A redistribution reaches all troves at once, and writes none of them: it adds to two sums, what
//! one unit of stake has got since the opening. A trove keeps the sums as they were at its owner's
//! last operation, its marks. So
//!
//! ```text
//! entire amount = recorded amount + stake * (sum now - mark) / 10^18, rounded down
//! ```
//!
//! The recorded amounts are in the active pool, what is pending is in the default pool. A stake is
//! from 1 to its trove's collateral: the collateral's part of the stakes as of the last
//! liquidation, so that collateral weighs alike whether its owner brought it or a redistribution
//! did. A trove's key, by which the list is ordered, stays from one operation of its owner to the
//! next.
#![tactic(auto)]

mod amounts;
pub mod examples;
pub mod laws;
mod sums;
mod table;

pub use amounts::{entire, grown, key, raised};
pub use liq_types::Trove;
pub use sums::Sums;
pub use table::Troves;
