//! What a trove has by the sums per unit of stake; its key and its stake.

ghost use Rattle.std.specs.Prelude.{◌≡◌, ◌≤◌, ◌<◌, ◌-◌, ◌*◌, ◌^◌, [], ◌∷◌};
ghost use Rattle.liq_types.specs.declared.amounts.TheConstants.{ONE as one};
ghost use Rattle.liq_types.specs.Rules.{first_refusal, outcome};
ghost use Rattle.liq_troves.specs.Rows.{pending, entire_by, key_by, stake_by, sum_after, sum_limit};

use crate::sums::Sums;
use liq_num::mul_div;
use liq_types::amounts::{ONE, SUM_MOST};
use liq_types::{Refusal, Trove};

/// The entire collateral (gwei) and the entire debt (micro-LUSD) of a trove: what is recorded and
/// what is pending by the sums.
pub fn entire(trove: &Trove, sums: &Sums) -> (u64, u64)
    requires mark_coll { trove.now.mark_coll ≤ sums.now.coll }
    requires mark_debt { trove.now.mark_debt ≤ sums.now.debt }
    requires sum_coll { sums.now.coll ≤ SUM_MOST }
    requires sum_debt { sums.now.debt ≤ SUM_MOST }
    requires coll { (entire_by sums.now trove.now).0 < 2 ^ 64 }
    requires debt { (entire_by sums.now trove.now).1 < 2 ^ 64 }
    ensures { result ≡ entire_by sums.now trove.now }
{
    let coll = pending_part(trove.stake, sums.coll, trove.mark_coll);
    let debt = pending_part(trove.stake, sums.debt, trove.mark_debt);
    (trove.coll + coll, trove.debt + debt)
}

/// What a stake has got since the sum was at the mark.
fn pending_part(stake: u64, now: u128, mark: u128) -> u64
    requires mark { mark ≤ now }
    requires fits { pending stake now mark < 2 ^ 64 }
    ensures { result ≡ pending stake now mark }
{
    mul_div(u128::from(stake), now - mark, u128::from(ONE)) as u64
}

/// The key of a trove in the ordered list, which stays from one operation of its owner to the next:
/// micro-LUSD per unit of stake, over 10^18, less what a unit had got before.
pub fn key(trove: &Trove) -> i128
    requires stake { 1 ≤ trove.now.stake }
    requires mark { trove.now.mark_debt ≤ SUM_MOST }
    ensures { result ≡ key_by trove.now }
{
    let debt = u128::from(trove.debt);
    let unit = mul_div(debt, u128::from(ONE), u128::from(trove.stake));
    unit as i128 - trove.mark_debt as i128
}

/// The stake for collateral: its part of the stakes as of the last liquidation, at least 1.
pub(crate) fn stake_for(sums: &Sums, coll: u64) -> u64
    requires some { 1 ≤ coll }
    requires snap { sums.now.snap_stakes ≤ sums.now.snap_coll }
    ensures { result ≡ stake_by sums.now.snap_stakes sums.now.snap_coll coll }
{
    if sums.snap_coll == 0 {
        return coll;
    }
    let stakes = u128::from(sums.snap_stakes);
    let part = mul_div(u128::from(coll), stakes, u128::from(sums.snap_coll));
    (part as u64).max(1)
}

/// The sum per unit of stake after an amount (gwei or micro-LUSD) for so many units of stake.
pub fn grown(sum: u128, amount: u64, stakes: u64) -> u128
    requires stakes { 1 ≤ stakes }
    requires sum { sum ≤ SUM_MOST }
    ensures { result ≡ sum_after sum amount stakes }
{
    sum + mul_div(u128::from(amount), u128::from(ONE), u128::from(stakes))
}

/// The same sum. Refused with `SumLimit` exactly where it would pass its limit.
pub fn raised(sum: u128, amount: u64, stakes: u64) -> Result<u128, Refusal>
    requires stakes { 1 ≤ stakes }
    requires sum { sum ≤ SUM_MOST }
    ensures { result ≡ outcome (first_refusal (sum_limit (sum_after sum amount stakes) ∷ []))
        (sum_after sum amount stakes) }
{
    let sum = grown(sum, amount, stakes);
    if sum > SUM_MOST {
        return Err(Refusal::SumLimit { sum });
    }
    Ok(sum)
}
