//! The liquidation of troves: what becomes of one, and of the lowest ones.
//!
//! A trove's collateral and debt go to up to four places, by the mode, the trove's ratio and what
//! the Stability Pool has; together they are what it had:
//!
//! ```text
//!                  +--> liquidator    a 200th of what is taken over, and the reserve
//! trove entire  ---+--> the pool      debt, and collateral for it
//!                  +--> other troves  the rest of both, by their stakes
//!                  +--> its owner     collateral that is left, where the pool pays by worth
//! ```
//!
//! A plan changes nothing. It is applied on room that was reserved, and takes no memory then.
#![tactic(auto)]

mod apply;
mod figures;
pub mod laws;
mod lowest;
mod one;
mod plan;

pub use apply::apply_one;
pub use lowest::{LowestFault, plan_lowest};
pub use one::{One, Victim};
pub use plan::plan_one;
