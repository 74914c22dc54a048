//! Sessions: scripts of requests that are asked at once, each in its order; and a load of calls
//! that a seed alone determines.
//!
//! ```text
//! next request --> gate, hint, call, gate --> a reply: the next request
//!                                             anything else: the session ends with it
//! no further request --> the session ends with all
//! ```
//!
//! Each session has its seat at the desk, and all but the first run in threads of their own. All
//! memory is taken before the first call: a session that began ends by its desk's answers alone.
#![tactic(auto)]

mod at_once;
mod done;
pub mod examples;
mod gate;
mod generator;
mod hints;
mod script;
mod session;
mod waiting;

pub use at_once::run_sessions;
pub use done::{Replies, SessionDone, SessionEnd, Work};
pub use gate::{Gate, OpenGate};
pub use generator::{Generator, generate};
pub use hints::NoHints;
pub use script::{REQUESTS_MOST, Requests, Script};
