//! Tests of stores, what they tell of their list, the journal's limit, the review of its commands,
//! and the follower, called directly: over memory that fails, and over journals of both versions
//! cut at each byte, in pieces of several sizes, and damaged. Those journals come from outside:
//! scripts/make-disks, which knows the formats alone.
//!
//! They say what no clause says: that the calls succeed where memory is ample, and at which device
//! call a fault comes.
#![tactic(auto)]

#[cfg(test)]
mod follower;
#[cfg(test)]
mod journals;
#[cfg(test)]
mod tests;
