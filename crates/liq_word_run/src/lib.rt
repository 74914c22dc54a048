//! The word `run`: each line of the input is a request, answered in turn over the store of two
//! disks. Replies wait while the next line stands whole in what was read, and are written before
//! the source is read again; what they say is on the disks by then.
#![tactic(auto)]

mod calls;
mod run;
mod waiting;
mod whole;

pub use whole::run_on;
