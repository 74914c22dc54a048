//! Tests of markets in memory, called directly.
//!
//! They say what no clause says: that the calls succeed where memory is ample, and which bytes a
//! save has.
#![tactic(auto)]

#[cfg(test)]
mod tests;
