//! Borrowing: a trove is opened, adjusted and closed by its owner.

ghost use Rattle.std.specs.Prelude.{◌≡◌, ◌≤◌, ◌<◌, ◌+◌, ℕ, None, length};
ghost use Rattle.std.specs.List.{Contains};
ghost use Rattle.liq_types.specs.declared.events.ListChange.TheVariants.{Put};
ghost use Rattle.liq_types.specs.declared.hints.HintWords.{HintWords};
ghost use Rattle.liq_types.specs.declared.requests.Call.TheVariants as call;
ghost use Rattle.liq_types.specs.State.{wallet_of};
ghost use Rattle.liq_types.specs.Totals.{market_of, or_nothing};
ghost use Rattle.liq_troves.specs.Rows.{key_by, set_row};
ghost use Rattle.liq_troves.specs.StakeSums.{entire_of, sums_words};
ghost use Rattle.liq_borrow.specs.Borrowing.{opening_terms, adjusting_terms, closing_terms};
ghost use Rattle.liq_trove_moves.specs.Steps.{TakesFew, entry_in};
ghost use Rattle.liq_core.specs.Core.{Changes, state_of};
ghost use Rattle.liq_rule_step.specs.Step.{rules, first_refusal};
ghost use Rattle.liq_core.specs.Turn.{IsRuled};

use crate::effects::{Effect, Move};
use crate::engine::Protocol;
use crate::kinds;
use crate::standing::{change_trove, lift_trove};
use crate::told::{ListChanges, PoolEvents};
use crate::turns::Forecast;
use liq_borrow::{Change, Plan, plan_adjust, plan_close, plan_open};
use liq_trove_moves::place;
use liq_troves::{entire, key};
use liq_types::amounts::{ACCOUNTS, LIM, RESERVE};
use liq_types::{Done, Hint, HintWords, ListChange, Refusal, Steps, Wallet};
use std::sync::ledger::Ledger;

impl Protocol {
    /// Entire collateral (gwei) and debt (micro-LUSD) of the account's trove, if it has one.
    pub(crate) fn entire(&self, account: u32) -> Option<(u64, u64)>
        ensures entire { result ≡ entire_of (state_of self.now) account }
        ensures coll { (or_nothing result).0 + (wallet_of (state_of self.now) account).coll ≤ LIM }
        ensures debt { (or_nothing result).1 ≤ (market_of (state_of self.now)).total_debt }
    {
        let trove = self.troves.get(account)?;
        Some(entire(trove, self.troves.sums()))
    }

    /// Where a trove with these amounts will stand in the list.
    pub(crate) fn standing(&self, account: u32, coll: u64, debt: u64) -> ListChange
        requires { 1 ≤ coll }
        ensures { result ≡ Put (key_by (set_row (sums_words (state_of self.now)) coll debt))
            account }
    {
        let row = self.troves.row_for(coll, debt);
        ListChange::Put {
            key: key(&row),
            account,
        }
    }

    pub(crate) fn plan_open(
        &self,
        account: u32,
        coll: u64,
        borrow: u64,
        bound: u64,
        words: HintWords,
    ) -> Result<Forecast, Refusal>
        ensures { IsRuled (state_of self.now) (call.Open account coll borrow bound words) result }
    {
        let exists = self.troves.get(account).is_some();
        let wallet = self.wallet(account);
        let plan = plan_open(
            &self.market(),
            &wallet,
            exists,
            account,
            coll,
            borrow,
            bound,
        )?;
        Ok(Forecast {
            done: Done {
                kind: kinds::OPEN,
                values: [plan.debt, plan.fee, 0, 0, 0, 0],
            },
            effect: Effect::Move(Move::Open {
                account,
                borrow,
                plan,
                words,
            }),
            events: PoolEvents::Nothing,
            changes: ListChanges::One([self.standing(account, plan.coll, plan.debt)]),
        })
    }

    pub(crate) fn plan_adjust(
        &self,
        account: u32,
        change: &Change,
        bound: u64,
        words: HintWords,
    ) -> Result<Forecast, Refusal>
        ensures { IsRuled (state_of self.now) (call.Adjust account change.now.coll_in
            change.now.coll_out change.now.borrow change.now.repay bound words) result }
    {
        // odd: field read
        let _ = &self.records;
        let had = self.entire(account);
        let wallet = self.wallet(account);
        let plan = plan_adjust(&self.market(), &wallet, had, account, change, bound)?;
        Ok(Forecast {
            done: Done {
                kind: kinds::ADJUST,
                values: [plan.coll, plan.debt, plan.fee, 0, 0, 0],
            },
            effect: Effect::Move(Move::Adjust {
                account,
                change: *change,
                plan,
                words,
            }),
            events: PoolEvents::Nothing,
            changes: ListChanges::One([self.standing(account, plan.coll, plan.debt)]),
        })
    }

    pub(crate) fn plan_close(&self, account: u32) -> Result<Forecast, Refusal>
        ensures { IsRuled (state_of self.now) (call.Close account) result }
    {
        let had = self.entire(account);
        let wallet = self.wallet(account);
        let (repaid, coll) = plan_close(&self.market(), &wallet, had, account)?;
        Ok(Forecast {
            done: Done {
                kind: kinds::CLOSE,
                values: [repaid, coll, 0, 0, 0, 0],
            },
            effect: Effect::Move(Move::Close {
                account,
                repaid,
                coll,
            }),
            events: PoolEvents::Nothing,
            changes: ListChanges::One([ListChange::Gone { account }]),
        })
    }

    /// Opens the account's trove as it is planned: its collateral leaves the wallet, and what is
    /// borrowed comes into it.
    pub(crate) fn apply_open<L: Ledger>(
        &mut self,
        account: u32,
        borrow: u64,
        plan: &Plan,
        hint: &Hint,
        steps: &mut Steps<L>,
    )
        requires allowed { (bound : ℕ) × (words : HintWords)
            × (first_refusal (rules (state_of self.old) (call.Open account plan.now.coll borrow
            bound words)) ≡ None) }
        requires terms { plan.now ≡ opening_terms (market_of (state_of self.old)) plan.now.coll
            borrow }
        requires range { account < ACCOUNTS }
        requires wallet { Contains self.old.room.wallets account }
        requires trove { Contains self.old.room.troves account }
        requires list { 1 ≤ self.old.room.list }
        ensures made { (bound : ℕ) → (words : HintWords)
            → Changes self.old (call.Open account plan.now.coll borrow bound words) self.new }
        ensures few { TakesFew self.new.list hint.now (entry_in self.new.list account) steps.old
            steps.new }
        ensures any { steps.new ≤ steps.old + (length self.old.list + 4) }
    {
        let coll = plan.coll;
        self.wallets.exchange(
            account,
            &Wallet { coll, lusd: 0 },
            &Wallet {
                coll: 0,
                lusd: borrow,
            },
        );
        self.rate = plan.rate;
        self.pools.fee_lusd += plan.fee;
        self.pools.reserve += RESERVE;
        let (pools, troves) = (&mut self.pools, &mut self.troves);
        let (order, debt) = (&mut self.order, plan.debt);
        place(pools, troves, order, account, coll, debt, hint, steps);
    }

    /// Adjusts the account's trove as it is planned: the owner gives and gets what is asked.
    pub(crate) fn apply_adjust<L: Ledger>(
        &mut self,
        account: u32,
        change: &Change,
        plan: &Plan,
        hint: &Hint,
        steps: &mut Steps<L>,
    )
        requires allowed { (bound : ℕ) × (words : HintWords)
            × (first_refusal (rules (state_of self.old) (call.Adjust account change.now.coll_in
            change.now.coll_out change.now.borrow change.now.repay bound words)) ≡ None) }
        requires terms { plan.now ≡ adjusting_terms (market_of (state_of self.old))
            (or_nothing (entire_of (state_of self.old) account)) change.now }
        requires range { account < ACCOUNTS }
        requires room { Contains self.old.room.wallets account }
        ensures made { (bound : ℕ) → (words : HintWords)
            → Changes self.old (call.Adjust account change.now.coll_in change.now.coll_out
            change.now.borrow change.now.repay bound words) self.new }
        ensures few { TakesFew self.new.list hint.now (entry_in self.new.list account) steps.old
            steps.new }
        ensures any { steps.new ≤ steps.old + (length self.old.list + 4) }
    {
        self.wallets.exchange(
            account,
            &Wallet {
                coll: change.coll_in,
                lusd: change.repay,
            },
            &Wallet {
                coll: change.coll_out,
                lusd: change.borrow,
            },
        );
        self.rate = plan.rate;
        self.pools.fee_lusd += plan.fee;
        let (pools, troves) = (&mut self.pools, &mut self.troves);
        change_trove(pools, troves, &mut self.order, account, plan, hint, steps);
    }

    /// Closes the account's trove: its debt beside the reserve is repaid, the reserve is burned,
    /// and its collateral returns.
    pub(crate) fn apply_close(&mut self, account: u32, repaid: u64, coll: u64)
        requires allowed { first_refusal (rules (state_of self.old) (call.Close account)) ≡ None }
        requires terms { (repaid, coll)
            ≡ closing_terms (or_nothing (entire_of (state_of self.old) account)) }
        requires range { account < ACCOUNTS }
        requires room { Contains self.old.room.wallets account }
        ensures { Changes self.old (call.Close account) self.new }
    {
        self.wallets.exchange(
            account,
            &Wallet {
                coll: 0,
                lusd: repaid,
            },
            &Wallet { coll, lusd: 0 },
        );
        self.pools.reserve -= RESERVE;
        lift_trove(&mut self.pools, &mut self.troves, &mut self.order, account);
    }
}
