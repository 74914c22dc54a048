//! Commands that are made again, each shown to an onlooker before it is made: one of them, as who
//! reads a journal makes them, or a list, from the opening under a limit on. A replay ends behind
//! the last command, or at the first that the rules refuse or that comes again: that one is
//! damage, told by its number.
#![tactic(auto)]

mod fault;
mod onlooker;
mod replay;

pub use fault::ReplayFault;
pub use onlooker::Onlooker;
pub use replay::{redo, replay_commands};
