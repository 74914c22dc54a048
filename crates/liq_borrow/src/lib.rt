//! Opening, changing and closing troves: the rules that decide what is refused, and what a trove
//! then has. Each plan reads a market and an owner's trove, and gives the first rule's refusal, in
//! the order that its text says, or what the trove then has. Nothing is changed here: `liq_core`
//! carries plans out.
#![tactic(auto)]

mod adjust;
mod change;
mod checks;
mod close;
mod gain;
pub mod laws;
mod open;
mod terms;

pub use adjust::plan_adjust;
pub use change::{Change, Plan};
pub use close::plan_close;
pub use gain::plan_gain;
pub use open::plan_open;
pub use terms::is_recovery;
