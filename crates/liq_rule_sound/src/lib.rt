//! Sound states: which they are, that every step keeps them, and what holds of each.
//!
//! In a sound state each gwei and each micro-LUSD has one home, all words and rows lie within their
//! bounds, what is pending is backed, and no depositor is owed more than the pool has. The opening
//! is sound, so every state that a run reaches is; so is one that begins with the image of a
//! checkpoint which passes the eleven rules.
//!
//! Nothing here runs: the definitions are in `specs/`, and each function is the place of a law.
#![tactic(auto)]

pub mod soundness;
