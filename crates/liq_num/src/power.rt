//! Products and powers of decimal fractions.

ghost use Rattle.std.specs.Prelude.{◌≡◌, ◌≤◌};
ghost use Rattle.liq_num.specs.Power.{rounded_product, power_of};

use crate::quotient::in_ones;

/// The whole: a decimal fraction is a number of 10^18ths.
pub const ONE: u64 = 1_000_000_000_000_000_000;

/// Half of the whole, which a product adds before it is rounded down.
pub const HALF: u64 = 500_000_000_000_000_000;

/// The most minutes that a power counts, a thousand years of 365 days: a greater exponent counts as
/// this one.
pub const MOST_MINUTES: u64 = 525_600_000;

/// The product of two fractions, both over `ONE`, rounded to the nearest; a half is rounded up.
pub fn dec_mul(x: u64, y: u64) -> u64
    requires left { x ≤ ONE }
    requires right { y ≤ ONE }
    ensures product { result ≡ rounded_product x y }
    ensures within { result ≤ ONE }
{
    in_ones(u128::from(x) * u128::from(y) + u128::from(HALF)) as u64
}

/// The fraction `x`, over `ONE`, to the power of `n` minutes, by repeated squaring from the lowest
/// binary digit of `n`. Each product is rounded in turn, which fixes the last digits of the answer.
pub fn dec_pow(x: u64, n: u64) -> u64
    requires { x ≤ ONE }
    ensures power { result ≡ power_of x n }
    ensures within { result ≤ ONE }
{
    let mut exponent = n.min(MOST_MINUTES);
    if exponent == 0 {
        return ONE;
    }
    let mut square = x;
    let mut product = ONE;
    while exponent > 1 {
        if exponent % 2 == 1 {
            product = dec_mul(square, product);
        }
        square = dec_mul(square, square);
        exponent /= 2;
    }
    dec_mul(square, product)
}
