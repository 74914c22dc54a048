//! The mode, and what a borrowing costs in it.

ghost use Rattle.std.specs.Prelude.{◌≡◌, ◌≤◌};
ghost use Rattle.liq_types.specs.Totals as totals;
ghost use Rattle.liq_borrow.specs.Borrowing as rules;
ghost use Rattle.liq_borrow.specs.Given.{IsMarket};

use liq_num::ratio_below;
use liq_rate::{Rate, borrow_fee};
use liq_types::Market;
use liq_types::amounts::{CCR, FLOOR_RATE, MCR};

/// Whether Recovery Mode holds.
pub fn is_recovery(market: &Market) -> bool
    requires { IsMarket market.now }
    ensures { result ≡ totals.is_recovery market.now }
{
    ratio_below(market.total_coll, market.total_debt, market.price, CCR)
}

/// The base rate as it was left at the last fee.
pub fn rate_kept(market: &Market) -> Rate
    ensures { result ≡ record { base = market.now.base; minute = market.now.fee_minute } }
{
    Rate {
        base: market.base,
        minute: market.fee_minute,
    }
}

/// The fee of a borrowing (micro-LUSD) and the base rate after it. In Recovery Mode there is no fee
/// and the rate stays, as it does where nothing is borrowed.
pub fn borrowing(market: &Market, amount: u64) -> (u64, Rate)
    requires { IsMarket market.now }
    ensures fee { result.0 ≡ rules.fee_now market.now amount }
    ensures rate { result.1 ≡ rules.rate_borrowed market.now amount }
    ensures within { result.0 ≤ amount }
{
    let kept = rate_kept(market);
    if amount == 0 || is_recovery(market) {
        return (0, kept);
    }
    let rate = kept.on_borrow(market.minute);
    (borrow_fee(rate.base, amount), rate)
}

/// The least bound that may be set on a fee's rate, over 10^18.
pub fn least_bound(market: &Market) -> u64
    requires { IsMarket market.now }
    ensures { result ≡ rules.least_bound market.now }
{
    if is_recovery(market) { 0 } else { FLOOR_RATE }
}

/// The percent that a trove must have where its debt grows.
pub fn least_ratio(market: &Market) -> u64
    requires { IsMarket market.now }
    ensures percent { result ≡ rules.least_ratio market.now }
    ensures within { result ≤ 150 }
{
    if is_recovery(market) { CCR } else { MCR }
}
