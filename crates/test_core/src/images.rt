//! Images that break one rule after the other, on both sides of each bound, with answers that were
//! worked out by hand from the rules.

mod parts;
mod rules;
mod turns;
