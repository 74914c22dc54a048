//! A trove leaves, a trove comes: in the table, in the pools that hold what it has, and in the
//! list, all three together. Between two calls the same accounts are in the table and in the list,
//! each under its trove's key.
#![tactic(auto)]

mod standing;

pub use standing::{lift, place};
