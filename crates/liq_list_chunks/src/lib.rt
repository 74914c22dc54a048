//! A list of ascending entries, each a key and an account, that stays near in memory: a place is
//! found by one search, and an entry comes and goes without touching the whole list.
//!
//! ```text
//! firsts   | a0    | b0    | c0    | ..      one entry of each chunk, all in one piece of memory
//! rests    | a1 .. | b1 .. | c1 .. | ..      at most 63 more of each chunk, in a piece of its own
//! ```
//!
//! The entries in their order are `a0 a1 .. b0 b1 .. c0 c1 ..`. A chunk that is full is cut in two;
//! where an entry leaves, two beside each other that have at most 32 together become one.
#![tactic(auto)]

mod chunks;

pub use chunks::{Chunks, Entry};
