//! The tests, and what they share.

mod answers;
mod checks;
mod forks;
mod lists;
mod runs;
mod saves;
