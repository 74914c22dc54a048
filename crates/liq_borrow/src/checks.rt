//! The rules, each tested by itself. A rule that is tested only where a condition holds is told
//! whether it `applies`.

ghost use Rattle.std.specs.Prelude.{◌≡◌, ◌≤◌, ◌<◌, ◌^◌, ◌*◌, nat_le};
ghost use Rattle.liq_types.specs.declared.replies.Refusal.TheVariants as refused;
ghost use Rattle.liq_types.specs.Rules.{only_where, where_above, where_below, where_short};
ghost use Rattle.liq_types.specs.Totals.{worth, asked};
ghost use Rattle.liq_rate.specs.Bound.{fee_bound, fee_over};
ghost use Rattle.liq_borrow.specs.Borrowing.{both_ways, is_no_change};
ghost use Rattle.liq_borrow.specs.Checks.{Tells};

use crate::change::Change;
use liq_num::GWEI_PER_ETH;
use liq_types::Refusal;
use liq_types::amounts::{CCR, MIN_NET, ONE};

/// `FeeBound`: the bound is above the whole or below the least rate.
pub fn bound(applies: bool, bound: u64, least: u64) -> Result<(), Refusal>
    ensures { Tells (only_where applies (fee_bound bound least)) result }
{
    if applies && (bound > ONE || bound < least) {
        return Err(Refusal::FeeBound { bound, least });
    }
    Ok(())
}

/// `FeeOver`: the fee is a greater part of the amount than the bound.
pub fn fee(fee: u64, amount: u64, bound: u64) -> Result<(), Refusal>
    ensures { Tells (fee_over fee amount bound) result }
{
    let left = u128::from(fee) * u128::from(ONE);
    let right = u128::from(bound) * u128::from(amount);
    if right < left {
        return Err(Refusal::FeeOver { left, right });
    }
    Ok(())
}

/// `BothWays`: neither amount is 0.
pub fn one_way(first: u64, second: u64) -> Result<(), Refusal>
    ensures { Tells (both_ways first second) result }
{
    if first > 0 && second > 0 {
        return Err(Refusal::BothWays { first, second });
    }
    Ok(())
}

/// `NoChange`: all amounts are 0.
pub fn some_change(change: &Change) -> Result<(), Refusal>
    ensures { Tells (is_no_change change.now, refused.NoChange) result }
{
    if change.coll_in == 0 && change.coll_out == 0 && change.borrow == 0 && change.repay == 0 {
        return Err(Refusal::NoChange);
    }
    Ok(())
}

/// `LastTrove`: there is no other trove.
pub fn not_last(troves: u64) -> Result<(), Refusal>
    ensures { Tells (nat_le troves 1, refused.LastTrove troves) result }
{
    if troves <= 1 {
        return Err(Refusal::LastTrove { troves });
    }
    Ok(())
}

/// `NetDebtLow`: the debt beside the reserve (micro-LUSD) is below its least.
pub fn net_debt(applies: bool, net: u128) -> Result<(), Refusal>
    ensures { Tells (only_where applies (where_below net MIN_NET refused.NetDebtLow)) result }
{
    if applies && net < u128::from(MIN_NET) {
        return Err(Refusal::NetDebtLow {
            net: net as u64,
            least: MIN_NET,
        });
    }
    Ok(())
}

/// `AmountLimit`: there would be more LUSD (micro-LUSD) than there may be.
pub fn supply(sum: u128, limit: u64) -> Result<(), Refusal>
    ensures { Tells (where_above sum limit refused.AmountLimit) result }
{
    if sum > u128::from(limit) {
        return Err(Refusal::AmountLimit { sum, limit });
    }
    Ok(())
}

/// `ShortCollateral`: more collateral (gwei) is needed than there is.
pub fn collateral(need: u64, have: u64) -> Result<(), Refusal>
    ensures { Tells (where_short need have refused.ShortCollateral) result }
{
    if have < need {
        return Err(Refusal::ShortCollateral { need, have });
    }
    Ok(())
}

/// `ShortTokens`: more LUSD (micro-LUSD) is needed than there is.
pub fn tokens(need: u64, have: u64) -> Result<(), Refusal>
    ensures { Tells (where_short need have refused.ShortTokens) result }
{
    if have < need {
        return Err(Refusal::ShortTokens { need, have });
    }
    Ok(())
}

/// `RatioLow`: the collateral (gwei) is worth less than so many percent of the debt (micro-LUSD).
pub fn ratio(applies: bool, coll: u64, debt: u64, price: u64, percent: u64) -> Result<(), Refusal>
    requires price { price ≤ 10 ^ 12 }
    requires percent { percent ≤ 150 }
    ensures { Tells (only_where applies (where_below (worth coll price) (asked percent debt)
        refused.RatioLow)) result }
{
    let left = worth_of(u128::from(coll), price);
    let right = asked_of(percent, u128::from(debt));
    if applies && left < right {
        return Err(Refusal::RatioLow { left, right });
    }
    Ok(())
}

/// `SystemRatioLow`: all collateral (gwei) is worth less than the critical percent of all debt
/// (micro-LUSD).
pub fn totals(applies: bool, coll: u128, debt: u128, price: u64) -> Result<(), Refusal>
    requires price { price ≤ 10 ^ 12 }
    requires coll { coll < 2 ^ 66 }
    requires debt { debt < 2 ^ 66 }
    ensures { Tells (only_where applies (where_below (worth coll price) (asked CCR debt)
        refused.SystemRatioLow)) result }
{
    let left = worth_of(coll, price);
    let right = asked_of(CCR, debt);
    if applies && left < right {
        return Err(Refusal::SystemRatioLow { left, right });
    }
    Ok(())
}

/// `RecoveryForbids`: all collateral (gwei) is worth less than the critical percent of all debt
/// (micro-LUSD) already.
pub fn no_recovery(applies: bool, coll: u64, debt: u64, price: u64) -> Result<(), Refusal>
    requires price { price ≤ 10 ^ 12 }
    ensures { Tells (only_where applies (where_below (worth coll price) (asked CCR debt)
        refused.RecoveryForbids)) result }
{
    let left = worth_of(u128::from(coll), price);
    let right = asked_of(CCR, u128::from(debt));
    if applies && left < right {
        return Err(Refusal::RecoveryForbids { left, right });
    }
    Ok(())
}

/// `RatioFalls`: the ratio of the new collateral (gwei) to the new debt (micro-LUSD) is below that
/// of the old ones.
pub fn no_fall(applies: bool, new: (u64, u64), old: (u64, u64)) -> Result<(), Refusal>
    ensures { Tells (only_where applies (where_below (new.0 * old.1)
        (old.0 * new.1) refused.RatioFalls)) result }
{
    let left = u128::from(new.0) * u128::from(old.1);
    let right = u128::from(old.0) * u128::from(new.1);
    if applies && left < right {
        return Err(Refusal::RatioFalls { left, right });
    }
    Ok(())
}

/// What collateral is worth, as ratios compare it.
fn worth_of(coll: u128, price: u64) -> u128
    requires price { price ≤ 10 ^ 12 }
    requires coll { coll < 2 ^ 66 }
    ensures { result ≡ worth coll price }
{
    coll * u128::from(price) * 100
}

/// What so many percent of a debt ask for, as ratios compare it.
fn asked_of(percent: u64, debt: u128) -> u128
    requires percent { percent ≤ 150 }
    requires debt { debt < 2 ^ 66 }
    ensures { result ≡ asked percent debt }
{
    u128::from(percent) * debt * u128::from(GWEI_PER_ETH)
}
