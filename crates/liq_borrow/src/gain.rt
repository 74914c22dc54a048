//! Moving a gain into a trove.

ghost use Rattle.std.specs.Prelude.{◌≡◌, ◌≤◌, ◌+◌};
ghost use Rattle.liq_borrow.specs.Borrowing.{gain_plan, or_nothing};
ghost use Rattle.liq_borrow.specs.Given.{IsMarket};

use crate::change::Plan;
use crate::checks;
use crate::terms::{is_recovery, rate_kept};
use liq_types::amounts::{LIM, MCR};
use liq_types::{Market, Refusal};

/// What a gain (gwei) of the Stability Pool would make of the account's trove, of which the entire
/// collateral (gwei) and debt (micro-LUSD) are given. It is no borrowing: there is no fee, and the
/// base rate stays. Refused, in this order: `NoTrove`; `NoGain`; `RatioLow`, in Normal Mode.
pub fn plan_gain(
    market: &Market,
    entire: Option<(u64, u64)>,
    account: u32,
    gain: u64,
) -> Result<Plan, Refusal>
    requires market { IsMarket market.now }
    // What was brought in is within the limit, and so are the trove's part of it and the gain
    // together.
    requires coll { (or_nothing entire).0 + gain ≤ LIM }
    ensures { result ≡ gain_plan market.now entire account gain }
{
    let Some(had) = entire else {
        return Err(Refusal::NoTrove { account });
    };
    if gain == 0 {
        return Err(Refusal::NoGain { account });
    }
    let coll = had.0 + gain;
    checks::ratio(!is_recovery(market), coll, had.1, market.price, MCR)?;
    Ok(Plan {
        coll,
        debt: had.1,
        fee: 0,
        rate: rate_kept(market),
    })
}
