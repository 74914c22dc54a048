//! The tests, and what they share.

mod again;
mod checks;
mod commands;
mod devices;
mod followed;
mod full_journal;
mod hints;
mod reviews;
mod runs;
mod stores;
