//! Fees that stakers share, each by the part that its stake is of all stakes: an account beside the
//! protocol, kept in whole units, with the law that what each has gained is its exact share but for
//! a small allowance.
//!
//! For each asset a sum has what one unit of stake was given since the beginning. A staker keeps
//! what it had gained at its last change and the sum of then, so that a fee writes no staker. What
//! comes while nobody has a stake stays unshared.
#![tactic(auto)]

mod changes;
mod gains;
pub mod laws;
mod lines;
mod sharing;

pub use changes::{CHANGES_MOST, ChangeFault, FEES_MOST, STAKED_MOST, StakeRefusal};
pub use gains::{Gain, Pot, StakeRow, Staker};
pub use lines::{BadStakeLine, StakeLine, read_stake_line};
pub use sharing::Fees;
