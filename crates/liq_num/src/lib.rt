//! The numbers that every rule rests on: exact quotients of products, decimal fractions and their
//! powers, and the exact comparisons of ratios.
//!
//! A fraction is a whole number of 10^18ths. `mul_div` rounds down and `mul_div_up` up; `dec_mul`
//! and `dec_pow` round to the nearest, a half up. Each product has to fit 128 bits, which is for
//! the caller to know, so that nothing here takes memory or fails.
#![tactic(auto)]

pub mod laws;
mod power;
mod quotient;
mod ratio;

pub use power::{HALF, MOST_MINUTES, ONE, dec_mul, dec_pow};
pub use quotient::{mul_div, mul_div_up};
pub use ratio::{GWEI_PER_ETH, ratio_below, ratio_cmp, ratio_sides};
