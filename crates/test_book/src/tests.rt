//! The tests, and what they share.

mod checks;
mod full;
mod seats;
mod stores;
