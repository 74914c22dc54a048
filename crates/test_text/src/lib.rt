//! Tests of texts: the grammar of lines, the text of every reply, and the texts of scripts and
//! histories.
//!
//! They say what no clause says: that the calls succeed where memory is ample, and that the
//! definitions mean what was meant.
#![tactic(auto)]

#[cfg(test)]
mod tests;
