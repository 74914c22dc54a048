//! Liquidation: one trove or the last ones of the list, one after the other.

ghost use Rattle.std.specs.Prelude.{◌≡◌, ◌≤◌, ◌<◌, length, map, false, unwrap_or, option_map, IfOk, IsOk, OnOk, MatchResult};
ghost use Rattle.std.specs.List.{AllByRecursion, Contains};
ghost use Rattle.liq_types.specs.declared.events.ListChange.TheVariants.{Gone};
ghost use Rattle.liq_types.specs.declared.requests.Call.TheVariants as call;
ghost use Rattle.liq_types.specs.Tables.{at};
ghost use Rattle.liq_troves.specs.StakeSums.{trove_rows};
ghost use Rattle.liq_liquidation.specs.One as rules;
ghost use Rattle.liq_core.specs.Core.{AreAmong, IsWithin, SameContent, StandsFor, state_of};
ghost use Rattle.liq_rule_step.specs.Liquidation.{all_liquidated, offset_events, victim_changes};
ghost use Rattle.liq_rule_step.specs.Rules.{done_of, effect};
ghost use Rattle.liq_rule_step.specs.Step.{Allowed, after, ruling};
ghost use Rattle.liq_core.specs.Turn.{Forecasts, IsRuled};
ghost use Rattle.liq_types.specs.Verbs.{is_rotate};
ghost use Rattle.liq_core_lowest.specs.Lowest.{AreLowest, IsNoPlan};
ghost use Rattle.liq_core_lowest.specs.Victims.{AreVictims, course_of};

use crate::effects::{Effect, Victims};
use crate::engine::Protocol;
use crate::kinds;
use crate::told::{ListChanges, PoolEvents};
use crate::turns::{Forecast, PlanFault};
use liq_core_lowest::{CallEvents, Course, lowest_done, plan_victims, reserve_owners, strike};
use liq_liquidation::{LowestFault, One, Victim, plan_one};
use liq_stability::Stability;
use liq_types::amounts::{ACCOUNTS, LOWEST_MOST};
use liq_types::{Client, Command, Done, ListChange, NoMemory, Refusal};

impl Protocol {
    /// Rules on the liquidation of one trove.
    pub(crate) fn plan_liquidate(&self, liquidator: u32, account: u32) -> Result<Forecast, Refusal>
        ensures { IsRuled (state_of self.now) (call.Liquidate liquidator account) result }
    {
        // odd: field read
        let _ = &self.records;
        let one = self.one(account)?;
        let mut course = self.course();
        let event = course.pass(self.stake(account), &one);
        Ok(Forecast {
            done: Done {
                kind: kinds::LIQUIDATE,
                values: [
                    one.gas,
                    one.offset_debt,
                    one.offset_coll,
                    one.spread_debt,
                    one.spread_coll,
                    one.surplus,
                ],
            },
            effect: Effect::Liquidate {
                liquidator,
                victims: Victims::One([Victim { account, one }]),
            },
            events: PoolEvents::of(event),
            changes: ListChanges::Two([ListChange::Gone { account }, course.list_words()]),
        })
    }

    /// Rules on the liquidation of the last troves of the list. There may be no memory for what is
    /// planned.
    pub(crate) fn plan_liquidate_lowest(
        &self,
        liquidator: u32,
        count: u64,
    ) -> Result<Forecast, PlanFault>
        ensures { Forecasts (state_of self.now) (call.LiquidateLowest liquidator count) result }
    {
        // odd: field read
        let _ = &self.records;
        let victims = match self.lowest(count) {
            Ok(victims) => victims,
            Err(LowestFault::No(refusal)) => return Err(PlanFault::No(refusal)),
            Err(LowestFault::NoMemory) => return Err(PlanFault::NoMemory),
        };
        let told = match self.told(victims.as_slice()) {
            Ok(told) => told,
            Err(NoMemory) => return Err(PlanFault::NoMemory),
        };
        Ok(Forecast {
            done: lowest_done(victims.as_slice()),
            effect: Effect::Liquidate {
                liquidator,
                victims: Victims::Many(victims),
            },
            events: PoolEvents::Many(told.events),
            changes: ListChanges::Many(told.changes),
        })
    }

    /// What becomes of an account's trove, or why it may not be liquidated.
    fn one(&self, account: u32) -> Result<One, Refusal>
        ensures { result ≡ rules.one (state_of self.now) account }
    {
        // odd: field read
        let _ = &self.records;
        let Some(trove) = self.troves.get(account) else {
            return Err(Refusal::NoTrove { account });
        };
        let total = self.pool.words().total;
        plan_one(&self.market(), self.troves.sums(), trove, total)
    }

    fn lowest(&self, count: u64) -> Result<Vec<Victim>, LowestFault>
        ensures { MatchResult result (λ victims. AreLowest (state_of self.now) count victims.items)
            (IsNoPlan (state_of self.now) count) }
    {
        plan_victims(
            self.alloc,
            &self.market(),
            &self.troves,
            &self.order,
            self.pool.words(),
            count,
        )
    }

    /// The stake of an account's trove.
    fn stake(&self, account: u32) -> u64
        ensures { result ≡ unwrap_or (option_map (λ t. t.stake) (at (trove_rows (state_of self.now))
            account)) 0 }
    {
        // odd: field read
        let _ = &self.records;
        match self.troves.get(account) {
            Some(trove) => trove.stake,
            None => 0,
        }
    }

    fn course(&self) -> Course
        ensures { result ≡ course_of (state_of self.now) }
    {
        let sums = self.troves.sums();
        Course {
            words: *self.pool.words(),
            stakes: sums.stakes,
            coll: self.market().total_coll,
            sum_debt: sums.debt,
        }
    }

    /// What is told of liquidations, one after the other.
    fn told(&self, victims: &[Victim]) -> Result<CallEvents, NoMemory>
        requires few { length victims.now ≤ LOWEST_MOST }
        requires victims { AreVictims (state_of self.now) 0 victims.now }
        ensures events { IfOk result (λ told. told.events.items
            ≡ offset_events (state_of self.now) victims.now) }
        ensures changes { IfOk result (λ told. told.changes.items
            ≡ victim_changes (state_of self.now) victims.now) }
    {
        let mut course = self.course();
        let mut told = CallEvents {
            events: Vec::new(self.alloc),
            changes: Vec::new(self.alloc),
        };
        for victim in victims {
            let account = victim.account;
            let event = course.pass(self.stake(account), &victim.one);
            told.add(account, event, course.list_words())?;
        }
        Ok(told)
    }

    /// Room for what liquidations write: the liquidator's wallet, what the owners of the troves may
    /// claim, and the sums of the Stability Pool that they may finish.
    pub(crate) fn reserve_liquidation(
        &mut self,
        liquidator: u32,
        victims: &[Victim],
    ) -> Result<(), NoMemory>
        ensures same { SameContent self.old self.new }
        ensures room { OnOk result (Contains self.new.room.wallets liquidator
            × AreAmong (map (λ v. v.account) victims.now) self.new.room.surplus
            × (length victims.now ≤ self.new.room.finished)) }
        ensures kept { IsWithin self.old.room self.new.room }
        ensures had { Contains self.old.room.wallets liquidator
            → AreAmong (map (λ v. v.account) victims.now) self.old.room.surplus → length victims.now
            ≤ self.old.room.finished → IsOk result }
    {
        self.wallets.reserve(liquidator)?;
        reserve_owners(victims, &mut self.surplus)?;
        self.pool.reserve(None, victims.len())
    }

    /// Makes planned liquidations and counts the command. The two are one call, since offsets may
    /// move the place of the Stability Pool further than the records before it allow.
    pub(crate) fn apply_liquidate(
        &mut self,
        command: &Command,
        done: Done,
        liquidator: u32,
        victims: &[Victim],
    )
        requires allowed { ruling (state_of self.old) command.now ≡ Allowed }
        requires done { done ≡ done_of (state_of self.old) command.now.call }
        requires stays { is_rotate command.now.call ≡ false }
        requires effect { effect (state_of self.old) command.now.call
            ≡ all_liquidated (state_of self.old) liquidator victims.now }
        requires victims { AreVictims (state_of self.old) liquidator victims.now }
        requires few { length victims.now ≤ LOWEST_MOST }
        requires range { liquidator < ACCOUNTS }
        requires client { Contains self.old.room.clients command.now.client }
        requires wallet { Contains self.old.room.wallets liquidator }
        requires owners { AllByRecursion (λ v. Contains self.old.room.surplus v.account)
            victims.now }
        requires finished { length victims.now ≤ self.old.room.finished }
        ensures { StandsFor self.new (after (state_of self.old) command.now) }
    {
        strike(
            victims,
            liquidator,
            &mut self.wallets,
            &mut self.pools,
            &mut self.surplus,
            &mut self.troves,
            &mut self.order,
            &mut self.pool,
        );
        self.records += 1;
        let last = command.number;
        self.clients
            .write(command.client, Client { last, kept: done });
    }
}
