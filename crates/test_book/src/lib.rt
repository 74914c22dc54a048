//! Tests of a book, called directly: a seat that is out when its service is to be closed, and a
//! history that comes to be full.
//!
//! No clause says that the calls come back and succeed.
#![tactic(auto)]

#[cfg(test)]
mod tests;
