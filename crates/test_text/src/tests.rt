//! The tests, and what they share.

mod checks;
mod drip;
mod histories;
mod lines;
mod replies;
mod scripts;
