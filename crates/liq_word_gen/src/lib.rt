//! The word `gen`: a generated load, carried out on a protocol of its own, and the line that tells
//! where it leads. Nothing is read, and no disk is touched.
#![tactic(auto)]

mod load;
mod telling;

pub use telling::tell_load;
