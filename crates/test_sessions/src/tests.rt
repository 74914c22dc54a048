//! The tests, and what they share.

mod checks;
mod clerk;
mod desk;
mod gates;
mod ledger;
mod lock;
mod looks;
mod sessions;
mod views;
