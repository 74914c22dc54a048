//! The protocol for one thread: what a command or a query does, by the rules, and what it answers.
//!
//! ```text
//! command -- plan --> again:    the reply that was kept
//!                     refused:  the first rule's refusal
//!                     planned   -- reserve --> room for all that it writes -- apply --> its reply
//! query  -- query --> its reply
//! ```
//!
//! `plan` changes nothing, `reserve` nothing that is seen, and both may want memory; `apply` takes
//! none and cannot fail. So whoever keeps a journal writes the command down between the last two.
//!
//! A protocol's state is sound at all times, and its list has just the accounts that have a trove,
//! each under its trove's key.
#![tactic(auto)]

mod accounts;
mod borrowing;
mod call_accounts;
mod claims;
mod depositors;
mod effects;
mod engine;
mod hints;
mod image;
mod kinds;
pub mod laws;
mod liquidations;
mod listing;
mod payments;
mod queries;
mod ranges;
mod redemptions;
mod room;
mod rotation;
mod standing;
mod told;
mod turns;

pub use call_accounts::{CallAccounts, accounts_of};
pub use engine::Protocol;
pub use hints::unhinted;
pub use image::ImageFault;
pub use turns::{PlanFault, Planned, Turn};
