//! What a liquidation reads beside the troves, moment by moment.

ghost use Rattle.std.specs.Prelude.{◌≡◌, ℕ, ◌+◌, ◌-◌, ◌≤◌, ◌<◌, Some, IfSome, MatchResult, OnErr};
ghost use Rattle.liq_types.specs.Tables.{at};
ghost use Rattle.liq_troves.specs.Rows.{sum_after};
ghost use Rattle.liq_liquidation.specs.Given.{IsMarket, IsStruckOf};
ghost use Rattle.liq_liquidation.specs.Moment.{figures_after, victim_from};

use crate::one::{One, Victim};
use crate::plan::plan_one;
use liq_troves::{Sums, Troves, grown};
use liq_types::amounts::SUM_MOST;
use liq_types::{Market, Refusal};

/// The figures of one moment.
#[derive(Clone, Copy)]
pub(crate) struct Figures {
    pub market: Market,
    pub sums: Sums,
    /// LUSD in the Stability Pool.
    pub pool_total: u64,
}

impl Figures {
    /// Liquidates the trove of an account, the last of the list, and goes on to the moment after
    /// it. Where there is no account, or the trove may not be liquidated, it says why and stays.
    pub(crate) fn strike(&mut self, troves: &Troves, last: Option<u32>) -> Result<Victim, Refusal>
        requires market { IsMarket self.old.market }
        requires trove { (account : ℕ) → last ≡ Some account
            → IfSome (at troves.now.table.rows account) (IsStruckOf self.old) }
        ensures answer { result ≡ victim_from self.old troves.now.table.rows last }
        ensures after { MatchResult result
            (λ v. IfSome (at troves.now.table.rows v.account) (λ t. self.new
            ≡ figures_after self.old (self.old.sums.stakes - t.stake) v.one))
            (λ _. self.new ≡ self.old) }
    {
        let Some(account) = last else {
            return Err(Refusal::LastTrove {
                troves: self.market.troves,
            });
        };
        let Some(trove) = troves.get(account) else {
            return Err(Refusal::NoTrove { account });
        };
        let one = plan_one(&self.market, &self.sums, trove, self.pool_total)?;
        self.pass(trove.stake, &one);
        Ok(Victim { account, one })
    }

    /// Goes on to the moment after a trove with this stake was liquidated.
    fn pass(&mut self, stake: u64, one: &One)
        requires stake { stake < self.old.sums.stakes }
        requires troves { 1 ≤ self.old.market.troves }
        requires coll { one.now.gas + one.now.offset_coll + one.now.surplus
            ≤ self.old.market.total_coll }
        requires debt { one.now.offset_debt ≤ self.old.market.total_debt }
        requires pool { one.now.offset_debt ≤ self.old.pool_total }
        requires sum_coll { self.old.sums.coll ≤ SUM_MOST }
        requires sum_debt { self.old.sums.debt ≤ SUM_MOST }
        ensures { self.new ≡ figures_after self.old (self.old.sums.stakes - stake) one.now }
    {
        let stakes = self.sums.stakes - stake;
        let total_coll = self.market.total_coll - one.gas - one.offset_coll - one.surplus;
        self.market.total_coll = total_coll;
        self.market.total_debt -= one.offset_debt;
        self.market.troves -= 1;
        self.pool_total -= one.offset_debt;
        self.sums = Sums {
            coll: grown(self.sums.coll, one.spread_coll, stakes),
            debt: grown(self.sums.debt, one.spread_debt, stakes),
            stakes,
            snap_stakes: stakes,
            snap_coll: total_coll,
        };
    }
}
