//! What changes of the ordered list come to, given once or again: who is given some of them a
//! second time comes to the same list. No code runs here.
#![tactic(auto)]

pub mod laws;
