//! Quotients of products, rounded down or up.

ghost use Rattle.std.specs.Prelude.{◌≡◌, ◌*◌, ◌/◌, ◌^◌, ◌<◌};
ghost use Rattle.liq_num.specs.Quotient.{floor_of, ceiling_of};

use crate::power::ONE;

/// 2^123 over `ONE`, rounded down.
const ONE_INVERSE: u64 = 10_633_823_966_279_326_983;

/// `a * b / c`, rounded down.
pub fn mul_div(a: u128, b: u128, c: u128) -> u128
    requires divisor { 0 < c }
    requires product_fits { a * b < 2 ^ 128 }
    ensures { result ≡ floor_of a b c }
{
    // A division takes many times as long as these tests, which answer the commonest quotients: of
    // a whole, and of nothing.
    if b == c {
        return a;
    }
    let product = a * b;
    if product < c {
        return 0;
    }
    if c == u128::from(ONE) {
        return in_ones(product);
    }
    product / c
}

/// `a * b / c`, rounded up.
pub fn mul_div_up(a: u128, b: u128, c: u128) -> u128
    requires divisor { 0 < c }
    requires product_fits { a * b < 2 ^ 128 }
    ensures { result ≡ ceiling_of a b c }
{
    // Most are of at most one whole; of the others one division tells the rest too.
    let product = a * b;
    if product == 0 {
        return 0;
    }
    if product <= c {
        return 1;
    }
    let whole = product / c;
    if whole * c == product {
        whole
    } else {
        whole + 1
    }
}

/// How often `ONE` is in a number: `x / ONE`, for which a processor takes several times as long. Of
/// a number below 2^123 the guess by one product, over 2^59 and 2^64, is right or one or two too
/// low.
pub(crate) fn in_ones(x: u128) -> u128
    ensures { result ≡ x / ONE }
{
    let whole = u128::from(ONE);
    let Ok(head) = u64::try_from(x >> 59) else {
        return x / whole;
    };
    let guess = (u128::from(head) * u128::from(ONE_INVERSE)) >> 64;
    let counted = guess * whole;
    if counted <= x {
        let rest = x - counted;
        if rest < whole {
            return guess;
        }
        if rest < 2 * whole {
            return guess + 1;
        }
    }
    x / whole
}
