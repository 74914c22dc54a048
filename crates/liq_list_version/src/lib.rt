//! A version of the ordered list as others see it: the list, the words from which keys are made,
//! and the version's number. It follows changes, and answers between whom a trove stands or would
//! open, also for a trove that has no key yet. An answer of an old version costs steps and changes
//! no reply.
#![tactic(auto)]

mod asks;
pub mod laws;
mod version;
mod words;

pub use asks::Ask;
pub use version::Version;
