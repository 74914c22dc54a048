//! The rules: what each verb and each query does to a state, as a row a verb, the step and whole
//! runs, with their laws and worked examples.
//!
//! A rule state has lists where the program has words and tables: all redistributions, all events
//! of the Stability Pool. Its image has the words. So a rule is read without a word of how it is
//! carried out, and the crates above prove that they do it.
//!
//! Nothing here runs: the definitions are in `specs/`, and each function is the place of a law.
#![tactic(auto)]

pub mod examples;
pub mod laws;
pub mod plans;
