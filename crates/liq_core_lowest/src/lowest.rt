//! The lowest troves, as many as a command asks for.

ghost use Rattle.std.specs.Prelude.{◌≡◌, MatchResult};
ghost use Rattle.liq_types.specs.State.{State};
ghost use Rattle.liq_order.specs.Order.{order_by};
ghost use Rattle.liq_liquidation.specs.Lowest.{AreParts};
ghost use Rattle.liq_liquidation.specs.Moment.{IsSoundMoment, TrovesAreSound, moment_by};
ghost use Rattle.liq_core_lowest.specs.Lowest.{AreLowest, IsNoPlan};

use liq_liquidation::{LowestFault, Victim, plan_lowest};
use liq_order::Order;
use liq_stability::PoolWords;
use liq_troves::Troves;
use liq_types::amounts::LOWEST_MOST;
use liq_types::{Market, Refusal};
use std::alloc::Global;

/// The lowest troves, as many as are asked for at most, by all that a command for them tests. There
/// may be no memory for them only where no rule refuses them.
pub fn plan_victims(
    alloc: Global,
    m: &Market,
    troves: &Troves,
    order: &Order,
    words: &PoolWords,
    count: u64,
) -> Result<Vec<Victim>, LowestFault>
    requires order { order.now.entries ≡ order_by troves.now.table.rows }
    requires sound { IsSoundMoment (moment_by m.now troves.now.sums troves.now.table.rows
        words.now) }
    ensures { (s : State) → AreParts s m.now troves.now.sums troves.now.table.rows order.now.entries
        words.now → TrovesAreSound s
        → MatchResult result (λ victims. AreLowest s count victims.items) (IsNoPlan s count) }
{
    if count == 0 {
        return Err(LowestFault::No(Refusal::AmountZero));
    }
    if count > LOWEST_MOST {
        let (sum, limit) = (u128::from(count), LOWEST_MOST);
        return Err(LowestFault::No(Refusal::AmountLimit { sum, limit }));
    }
    plan_lowest(alloc, m, troves, order, words, count)
}
