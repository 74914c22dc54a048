//! Redemption: LUSD is given back for the collateral of the last troves of the list.

ghost use Rattle.std.specs.Prelude.{◌≡◌, ◌+◌, ◌≤◌, ◌<◌, ℕ, None, IfOk, length, map};
ghost use Rattle.std.specs.List.{AllByRecursion, Contains};
ghost use Rattle.liq_types.specs.declared.hints.HintWords.{HintWords};
ghost use Rattle.liq_types.specs.declared.requests.Call.TheVariants as call;
ghost use Rattle.liq_types.specs.State.{wallet_of};
ghost use Rattle.liq_types.specs.Totals.{market_of};
ghost use Rattle.liq_redemption.specs.Answers.{Answers};
ghost use Rattle.liq_trove_moves.specs.Steps.{TakesFew};
ghost use Rattle.liq_redemption.specs.Last.{last_entry};
ghost use Rattle.liq_redemption.specs.Redemption.{redeeming_terms, visited};
ghost use Rattle.liq_core.specs.Core.{AreAmong, Changes, state_of};
ghost use Rattle.liq_rule_step.specs.Redemption.{cut_told};
ghost use Rattle.liq_rule_sound.specs.SoundState.{CutIsCovered};
ghost use Rattle.liq_rule_step.specs.Step.{rules, first_refusal};
ghost use Rattle.liq_core.specs.Effects.{closed};
ghost use Rattle.liq_core.specs.Turn.{Forecasts};

use crate::effects::{Effect, Move};
use crate::engine::Protocol;
use crate::kinds;
use crate::told::{ListChanges, PoolEvents};
use crate::turns::{Forecast, PlanFault};
use liq_redemption::{Cut, RedeemFault, RedeemPlan, apply, plan};
use liq_types::amounts::ACCOUNTS;
use liq_types::{Done, Hint, HintWords, ListChange, NoMemory, Steps};
use std::sync::ledger::Ledger;

impl Protocol {
    /// Rules on a redemption. There may be no memory for its cuts.
    pub(crate) fn plan_redeem(
        &self,
        account: u32,
        lusd: u64,
        bound: u64,
        words: HintWords,
    ) -> Result<Forecast, PlanFault>
        ensures { Forecasts (state_of self.now) (call.Redeem account lusd bound words) result }
    {
        // odd: field read
        let _ = &self.records;
        let taken = match self.redemption(account, lusd, bound) {
            Ok(taken) => taken,
            Err(RedeemFault::No(refusal)) => return Err(PlanFault::No(refusal)),
            Err(RedeemFault::NoMemory) => return Err(PlanFault::NoMemory),
        };
        let changes = match self.cut_changes(taken.cuts.as_slice()) {
            Ok(changes) => changes,
            Err(NoMemory) => return Err(PlanFault::NoMemory),
        };
        Ok(Forecast {
            done: Done {
                kind: kinds::REDEEM,
                values: [
                    taken.redeemed,
                    taken.drawn,
                    taken.fee,
                    taken.rate.base,
                    0,
                    0,
                ],
            },
            effect: Effect::Move(Move::Redeem {
                account,
                plan: taken,
                words,
            }),
            events: PoolEvents::Nothing,
            changes: ListChanges::Many(changes),
        })
    }

    fn redemption(&self, account: u32, lusd: u64, bound: u64) -> Result<RedeemPlan, RedeemFault>
        ensures { Answers (market_of (state_of self.now)) (wallet_of (state_of self.now) account)
            (visited (state_of self.now)) lusd bound result }
    {
        let wallet = self.wallet(account);
        plan(
            self.alloc,
            &self.market(),
            &self.troves,
            &self.order,
            &wallet,
            lusd,
            bound,
        )
    }

    /// What becomes of the troves that are cut, in order.
    fn cut_changes(&self, cuts: &[Cut]) -> Result<Vec<ListChange>, NoMemory>
        requires { AllByRecursion (CutIsCovered (state_of self.now)) cuts.now }
        ensures { IfOk result (λ changes. changes.items
            ≡ map (cut_told (state_of self.now)) cuts.now) }
    {
        let mut changes = Vec::new(self.alloc);
        for cut in cuts {
            let change = self.cut_change(cut);
            let Ok(()) = changes.push(change) else {
                return Err(NoMemory);
            };
        }
        Ok(changes)
    }

    fn cut_change(&self, cut: &Cut) -> ListChange
        requires { CutIsCovered (state_of self.now) cut.now }
        ensures { result ≡ cut_told (state_of self.now) cut.now }
    {
        let account = cut.account;
        if cut.full {
            return ListChange::Gone { account };
        }
        let (coll, debt) = self.entire(account).unwrap_or((0, 0));
        self.standing(account, coll - cut.draw, debt - cut.lot)
    }

    /// Makes the planned cuts: troves are closed or cut down, LUSD leaves the account's wallet, and
    /// collateral comes into it.
    pub(crate) fn apply_redeem<L: Ledger>(
        &mut self,
        account: u32,
        taken: &RedeemPlan,
        hint: &Hint,
        steps: &mut Steps<L>,
    )
        requires planned { (lusd : ℕ) × (bound : ℕ) × (words : HintWords)
            × (first_refusal (rules (state_of self.old) (call.Redeem account lusd bound words))
            ≡ None)
            × (taken.now ≡ redeeming_terms (market_of (state_of self.old))
            (visited (state_of self.old)) lusd) }
        requires range { account < ACCOUNTS }
        requires wallet { Contains self.old.room.wallets account }
        requires claims { AreAmong (closed taken.now.cuts) self.old.room.surplus }
        ensures made { (lusd bound : ℕ) → (words : HintWords)
            → taken.now ≡ redeeming_terms (market_of (state_of self.old))
            (visited (state_of self.old)) lusd
            → Changes self.old (call.Redeem account lusd bound words) self.new }
        ensures few { TakesFew self.new.list hint.now (last_entry self.new.list taken.now.cuts)
            steps.old steps.new }
        ensures any { steps.new ≤ steps.old + (length self.old.list + 4) }
    {
        self.rate = taken.rate;
        apply(
            taken,
            account,
            hint,
            &mut self.wallets,
            &mut self.pools,
            &mut self.surplus,
            &mut self.troves,
            &mut self.order,
            steps,
        );
    }
}
