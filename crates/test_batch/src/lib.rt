//! Tests of batches over a market in memory, and of replies in 96 bytes, called directly.
//!
//! They say what no clause says: that the calls succeed where memory is ample.
#![tactic(auto)]

#[cfg(test)]
mod tests;
