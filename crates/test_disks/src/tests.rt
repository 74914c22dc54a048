//! The tests, and what they share.

mod checks;
mod cuts;
mod disks;
mod files;
mod found;
mod in_a_row;
mod journals;
mod looks;
mod stops;
mod streams;
mod wire;
