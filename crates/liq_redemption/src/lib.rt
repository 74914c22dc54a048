//! Redemption: LUSD for the collateral of the troves with the lowest ratios.
//!
//! A redemption goes along the list from its end to its front, past troves below the least ratio,
//! and takes of each trove's debt what it may. Each trove but the last is closed, and its owner may
//! claim what is left; the last one may keep a part, moves in the list, and keeps the least debt.
//!
//! ```text
//! walk, without a change --> cuts and fee, or the first refusal --> room --> apply, without memory
//! ```
#![tactic(auto)]

mod applying;
mod cut;
mod cuts;
mod fault;
pub mod laws;
mod planning;
mod visit;
mod walk;

pub use applying::{apply, reserve};
pub use cut::Cut;
pub use cuts::Cuts;
pub use fault::RedeemFault;
pub use planning::{RedeemPlan, plan};
pub use visit::Visit;
