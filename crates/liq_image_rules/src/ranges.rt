//! Rule 1: what the numbers of an image lie within.

ghost use Rattle.std.specs.Prelude.{◌≡◌};
ghost use Rattle.liq_types.specs.Soundness.{has_ranges, is_limit};

use liq_types::Image;
use liq_types::amounts::{
    GENERATIONS_MOST, LIM, LIM_OF_VERSION_1, MINUTE_MOST, ONE, PRICE_LEAST, PRICE_MOST,
    RECORDS_MOST,
};

/// Rule 1: whether price, minutes, base rate, generation, records, limit and collateral inside lie
/// within their bounds.
pub fn has_ranges(image: &Image, records: u64) -> bool
    ensures { result ≡ has_ranges image.now records }
{
    PRICE_LEAST <= image.price
        && image.price <= PRICE_MOST
        && image.minute <= MINUTE_MOST
        && image.fee_minute <= image.minute
        && image.base <= ONE
        && 1 <= image.generation
        && image.generation <= GENERATIONS_MOST
        && records <= RECORDS_MOST
        && is_limit(image.limit)
        && image.brought <= image.limit
}

/// Whether a protocol may have this limit: it is one of two.
fn is_limit(limit: u64) -> bool
    ensures { result ≡ is_limit limit }
{
    limit == LIM_OF_VERSION_1 || limit == LIM
}
