//! What becomes of one trove, or why it may not be liquidated, by the table of treatments. The
//! first line that holds decides:
//!
//! ```text
//! Normal Mode     ratio below 110       the pool what it can, the other troves the rest
//!                 else                  refused
//! Recovery Mode   ratio at most 100     the other troves all
//!                 below 110             the pool what it can, the other troves the rest
//!                 not below the total   refused
//!                 the pool holds less   refused
//!                 else                  the pool all, at 110 percent; the owner may claim the rest
//! ```

ghost use Rattle.std.specs.Prelude.{◌≡◌, ◌≤◌, ◌<◌, ◌^◌, ◌∷◌, ◌&&◌, [], nat_lt};
ghost use Rattle.liq_types.specs.declared.replies.Refusal.TheVariants as refused;
ghost use Rattle.liq_types.specs.Rules.{first_refusal, outcome};
ghost use Rattle.liq_types.specs.Totals as totals;
ghost use Rattle.liq_liquidation.specs.Given.{IsMarket, IsTroveOf};
ghost use Rattle.liq_liquidation.specs.One as rules;

use crate::one::One;
use liq_num::{GWEI_PER_ETH, mul_div, ratio_below, ratio_cmp};
use liq_troves::{Sums, entire, raised};
use liq_types::amounts::{CAP_WORTH, CCR, GAS_PART, MCR};
use liq_types::{Market, Refusal, Trove};
use std::cmp::Ordering;

/// What becomes of a trove, of all troves that the market counts and the sums are of, where the
/// Stability Pool has so much LUSD (micro-LUSD). Refused, in this order: `LastTrove`;
/// `NotLiquidatable`, by the mode and the trove's own ratio; `PoolTooSmall`, where the pool would
/// take over all; `SumLimit`, where the other troves would take over too much.
pub fn plan_one(
    market: &Market,
    sums: &Sums,
    trove: &Trove,
    pool_total: u64,
) -> Result<One, Refusal>
    requires market { IsMarket market.now }
    requires trove { IsTroveOf market.now sums.now trove.now }
    ensures { result ≡ rules.one_by market.now sums.now trove.now pool_total }
{
    if market.troves <= 1 {
        return Err(Refusal::LastTrove {
            troves: market.troves,
        });
    }
    let (coll, debt) = entire(trove, sums);
    let one = treated(market, coll, debt, pool_total)?;
    let stakes = sums.stakes - trove.stake;
    raised(sums.coll, one.spread_coll, stakes)?;
    raised(sums.debt, one.spread_debt, stakes)?;
    Ok(one)
}

/// What becomes of a trove with these entire amounts, by the table of treatments.
fn treated(market: &Market, coll: u64, debt: u64, pool_total: u64) -> Result<One, Refusal>
    requires { IsMarket market.now }
    ensures { result ≡ rules.treated_of market.now coll debt pool_total }
{
    let low = ratio_below(coll, debt, market.price, MCR);
    if is_normal(market) {
        return if low {
            Ok(plain(coll, debt, pool_total))
        } else {
            Err(not_liquidatable(market, coll, debt))
        };
    }
    if is_at_most_whole(coll, debt, market.price) {
        return Ok(redistributed(coll, debt));
    }
    if low {
        return Ok(plain(coll, debt, pool_total));
    }
    if ratio_cmp(coll, debt, market.total_coll, market.total_debt) != Ordering::Less {
        return Err(not_liquidatable(market, coll, debt));
    }
    if pool_total < debt {
        return Err(Refusal::PoolTooSmall {
            total: pool_total,
            debt,
        });
    }
    Ok(capped(market.price, coll, debt))
}

/// The Stability Pool takes over what it can, and the other troves the rest.
fn plain(coll: u64, debt: u64, pool_total: u64) -> One
    requires { 1 ≤ debt }
    ensures { result ≡ rules.plain coll debt pool_total }
{
    let gas = coll / GAS_PART;
    let offset_debt = debt.min(pool_total);
    let rest = u128::from(coll - gas);
    let part = mul_div(rest, u128::from(offset_debt), u128::from(debt));
    let offset_coll = part as u64;
    One {
        gas,
        offset_debt,
        offset_coll,
        spread_debt: debt - offset_debt,
        spread_coll: coll - gas - offset_coll,
        surplus: 0,
    }
}

/// The other troves take over all.
fn redistributed(coll: u64, debt: u64) -> One
    ensures { result ≡ rules.redistributed_whole coll debt }
{
    let gas = coll / GAS_PART;
    One {
        gas,
        offset_debt: 0,
        offset_coll: 0,
        spread_debt: debt,
        spread_coll: coll - gas,
        surplus: 0,
    }
}

/// The Stability Pool takes over all the debt for collateral worth 110 percent of it, and the owner
/// keeps the rest.
fn capped(price: u64, coll: u64, debt: u64) -> One
    requires price { 1 ≤ price }
    requires fits { rules.cap_of price debt ≤ coll }
    ensures { result ≡ rules.capped price coll debt }
{
    let worth = mul_div(u128::from(debt), u128::from(CAP_WORTH), u128::from(price));
    let cap = worth as u64;
    let gas = cap / GAS_PART;
    One {
        gas,
        offset_debt: debt,
        offset_coll: cap - gas,
        spread_debt: 0,
        spread_coll: 0,
        surplus: coll - cap,
    }
}

fn not_liquidatable(market: &Market, coll: u64, debt: u64) -> Refusal
    ensures { result ≡ refused.NotLiquidatable coll debt market.now.price market.now.total_coll
        market.now.total_debt }
{
    Refusal::NotLiquidatable {
        coll,
        debt,
        price: market.price,
        total_coll: market.total_coll,
        total_debt: market.total_debt,
    }
}

/// Whether Normal Mode holds.
fn is_normal(market: &Market) -> bool
    requires { IsMarket market.now }
    ensures { result ≡ totals.is_normal market.now }
{
    !ratio_below(market.total_coll, market.total_debt, market.price, CCR)
}

/// Whether collateral (gwei) is worth at most a debt (micro-LUSD).
fn is_at_most_whole(coll: u64, debt: u64, price: u64) -> bool
    ensures { result ≡ totals.is_at_most_whole coll debt price }
{
    u128::from(coll) * u128::from(price) <= u128::from(debt) * u128::from(GWEI_PER_ETH)
}
