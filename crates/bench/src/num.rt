//! The numbers' costly functions.

use crate::rate;
use liq_num::{MOST_MINUTES, ONE, dec_pow, mul_div};
use std::io;
use std::rt::Clock;
use std::time::Instant;

const FEW_CALLS: u64 = 1000;

/// The sum, at 64 bits, of powers at the greatest exponent.
fn powers(calls: u64) -> u64 {
    let mut sum: u64 = 0;
    for call in 0..calls {
        sum = sum.wrapping_add(dec_pow(ONE - call % 1000, MOST_MINUTES));
    }
    sum
}

/// The sum, at 128 bits, of quotients of products.
fn quotients(calls: u64) -> u128 {
    let whole = u128::from(ONE);
    let mut sum: u128 = 0;
    for call in 0..calls {
        let part = u128::from(ONE - call % 1000);
        sum = sum.wrapping_add(mul_div(part, whole, part + 1));
    }
    sum
}

/// The sums of a few calls of each.
pub fn a_few<R: Print>(rt: &R) -> io::Result<()> {
    let (powers, quotients) = (powers(FEW_CALLS), quotients(FEW_CALLS));
    println!(rt; "num: sums {powers} {quotients}")
}

/// Calls of each a second.
pub fn measure<R: Print + Clock>(rt: &R, calls: u64) -> io::Result<()> {
    let start = Instant::now(rt)?;
    let sum = u128::from(powers(calls));
    let each = rate(calls, start.elapsed(rt)?);
    tell(rt, "dec_pow at the greatest exponent", each, sum)?;
    let start = Instant::now(rt)?;
    let sum = quotients(calls);
    let each = rate(calls, start.elapsed(rt)?);
    tell(rt, "mul_div", each, sum)
}

/// A rate, with the sum of what was computed.
fn tell<R: Print>(rt: &R, what: &str, each: u128, sum: u128) -> io::Result<()> {
    println!(rt; "{what}: {each} calls a second (sum {sum})")
}
