//! The lowest troves, liquidated one after the other.

ghost use Rattle.std.specs.Prelude.{◌≡◌, ◌≤◌, [], ◌∷◌, ◌++◌, MatchResult};
ghost use Rattle.liq_types.specs.State.{State};
ghost use Rattle.liq_order.specs.Order.{order_by};
ghost use Rattle.liq_liquidation.specs.Lowest.{AreParts, lowest_plan};
ghost use Rattle.liq_liquidation.specs.Moment.{IsSoundMoment, TrovesAreSound, IsFaultOf, moment_by, plan_from};

use crate::figures::Figures;
use crate::one::Victim;
use liq_order::Order;
use liq_stability::PoolWords;
use liq_troves::Troves;
use liq_types::{Market, NoMemory, Refusal};
use std::alloc::Global;

/// Why no lowest troves are liquidated.
#[derive(Drop)]
pub enum LowestFault {
    /// The first of them may not be liquidated.
    No(Refusal),
    /// There is no memory for the plan. The first of them may be liquidated.
    NoMemory,
}

/// The lowest troves, at most n of them, as they would be liquidated one after the other: each is
/// the last of the list, is treated by the mode of its moment, and leaves the totals, the sums and
/// the pool for the next. It ends before the first that may not be liquidated; where that is the
/// very first, its refusal is the answer, and `LastTrove` where there is no trove. So there may be
/// no memory only where the first may be liquidated. Nothing is changed.
pub fn plan_lowest(
    alloc: Global,
    market: &Market,
    troves: &Troves,
    order: &Order,
    words: &PoolWords,
    n: u64,
) -> Result<Vec<Victim>, LowestFault>
    requires some { 1 ≤ n }
    requires most { n ≤ 64 }
    requires order { order.now.entries ≡ order_by troves.now.table.rows }
    requires sound { IsSoundMoment (moment_by market.now troves.now.sums troves.now.table.rows
        words.now) }
    ensures moment { let plan = plan_from
        (moment_by market.now troves.now.sums troves.now.table.rows
        words.now) n in MatchResult result (λ v. plan ≡ Ok v.items) (IsFaultOf plan) }
    ensures state { (s : State)
        → AreParts s market.now troves.now.sums troves.now.table.rows order.now.entries words.now
        → TrovesAreSound s → MatchResult result (λ v. lowest_plan s n ≡ Ok v.items)
        (IsFaultOf (lowest_plan s n)) }
{
    let figures = Figures {
        market: *market,
        sums: *troves.sums(),
        pool_total: words.total,
    };
    lowest_from(alloc, figures, troves, order, n)
}

/// The lowest troves from this moment on.
fn lowest_from(
    alloc: Global,
    mut figures: Figures,
    troves: &Troves,
    order: &Order,
    n: u64,
) -> Result<Vec<Victim>, LowestFault>
    requires some { 1 ≤ n }
    requires most { n ≤ 64 }
    requires order { order.now.entries ≡ order_by troves.now.table.rows }
    requires sound { IsSoundMoment (record { figures = figures; troves = troves.now.table.rows }) }
    ensures { let plan = plan_from (record { figures = figures; troves = troves.now.table.rows }) n
        in MatchResult result (λ v. plan ≡ Ok v.items) (IsFaultOf plan) }
{
    let first = match figures.strike(troves, order.last()) {
        Ok(first) => first,
        Err(refusal) => return Err(LowestFault::No(refusal)),
    };
    let mut victims = Vec::new(alloc);
    add(&mut victims, first)?;
    let mut last = first.account;
    for _ in 1..n {
        match figures.strike(troves, order.before(last)) {
            Ok(victim) => {
                add(&mut victims, victim)?;
                last = victim.account;
            }
            Err(_) => break,
        }
    }
    Ok(victims)
}

fn add(victims: &mut Vec<Victim>, victim: Victim) -> Result<(), LowestFault>
    ensures { MatchResult result (λ _. victims.new.items ≡ victims.old.items ++ victim ∷ [])
        (λ fault. fault ≡ LowestFault.NoMemory) }
{
    match victims.push(victim) {
        Ok(()) => Ok(()),
        Err(_) => Err(LowestFault::NoMemory),
    }
}
