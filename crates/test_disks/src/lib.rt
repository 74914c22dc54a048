//! Tests of sources, sinks, disks, the wire and journals, called directly: over memory that fails
//! and is torn, and over real files.
//!
//! They say what no clause says: that the calls succeed where memory is ample, how many device
//! calls each makes, and that the bytes are those of the format.
#![tactic(auto)]

#[cfg(test)]
mod tests;
