//! The Stability Pool's depositors: LUSD is provided and withdrawn, and a gain moves into its
//! owner's trove.

ghost use Rattle.std.specs.Prelude.{◌≡◌, ◌≤◌, ◌<◌, ◌+◌, is_none, None, length};
ghost use Rattle.std.specs.List.{Contains};
ghost use Rattle.liq_types.specs.declared.hints.HintWords.{HintWords};
ghost use Rattle.liq_types.specs.declared.requests.Call.TheVariants as call;
ghost use Rattle.liq_types.specs.State.{wallet_of};
ghost use Rattle.liq_types.specs.Tables.{at};
ghost use Rattle.liq_types.specs.Totals.{market_of, or_nothing};
ghost use Rattle.liq_ledger.specs.Refusals.{ruled};
ghost use Rattle.liq_troves.specs.StakeSums.{entire_of};
ghost use Rattle.liq_order.specs.Order.{last_trove};
ghost use Rattle.liq_stability.specs.Position.{balance_of, gain_of};
ghost use Rattle.liq_borrow.specs.Borrowing.{gaining_terms};
ghost use Rattle.liq_trove_moves.specs.Steps.{TakesFew, entry_in};
ghost use Rattle.liq_core.specs.Core.{Changes, state_of};
ghost use Rattle.liq_rule_step.specs.Pool.{trove_under};
ghost use Rattle.liq_rule_step.specs.Step.{rules, first_refusal};
ghost use Rattle.liq_core.specs.Turn.{IsRuled};

use crate::effects::{Effect, Move};
use crate::engine::Protocol;
use crate::kinds;
use crate::standing::change_trove;
use crate::told::{ListChanges, PoolEvents};
use crate::turns::Forecast;
use liq_borrow::{Plan, plan_gain};
use liq_num::GWEI_PER_ETH;
use liq_types::amounts::{ACCOUNTS, LIM, MCR};
use liq_types::{Done, Hint, HintWords, PoolEvent, Refusal, Steps, Wallet};
use std::sync::ledger::Ledger;

impl Protocol {
    /// Balance (micro-LUSD) and gain (gwei) of an account, which has nothing without a deposit.
    pub(crate) fn position(&self, account: u32) -> (u64, u64)
        ensures position { result ≡ (
          balance_of (state_of self.now) account,
          gain_of (state_of self.now) account,
        ) }
        ensures lusd { result.0 + (wallet_of (state_of self.now) account).lusd ≤ LIM }
        ensures coll { (or_nothing (entire_of (state_of self.now) account)).0 + result.1 ≤ LIM }
    {
        self.pool.position_of(account)
    }

    pub(crate) fn no_deposit(&self, account: u32) -> bool
        ensures { result ≡ is_none (at (state_of self.now).deposits account) }
    {
        self.pool.deposit(account).is_none()
    }

    pub(crate) fn plan_provide(&self, account: u32, lusd: u64) -> Result<Forecast, Refusal>
        ensures { IsRuled (state_of self.now) (call.Provide account lusd) result }
    {
        if lusd == 0 {
            return Err(Refusal::AmountZero);
        }
        let have = self.wallet(account).lusd;
        if have < lusd {
            return Err(Refusal::ShortTokens { need: lusd, have });
        }
        let (balance, gain) = self.position(account);
        let amount = balance + lusd;
        Ok(Forecast {
            done: Done {
                kind: kinds::PROVIDE,
                values: [amount, gain, 0, 0, 0, 0],
            },
            effect: Effect::Move(Move::Provide { account, lusd }),
            events: PoolEvents::One([PoolEvent::Own {
                account,
                put: lusd,
                paid: 0,
                gain,
                amount,
            }]),
            changes: ListChanges::Nothing,
        })
    }

    pub(crate) fn plan_withdraw(&self, account: u32, lusd: u64) -> Result<Forecast, Refusal>
        ensures { IsRuled (state_of self.now) (call.Withdraw account lusd) result }
    {
        if self.no_deposit(account) {
            return Err(Refusal::NoDeposit { account });
        }
        if lusd > 0 {
            self.no_trove_under()?;
        }
        let (balance, gain) = self.position(account);
        let paid = lusd.min(balance);
        Ok(Forecast {
            done: Done {
                kind: kinds::WITHDRAW,
                values: [paid, gain, 0, 0, 0, 0],
            },
            effect: Effect::Move(Move::Withdraw { account, lusd }),
            events: PoolEvents::One([PoolEvent::Own {
                account,
                put: 0,
                paid,
                gain,
                amount: balance - paid,
            }]),
            changes: ListChanges::Nothing,
        })
    }

    /// `TroveUnder`: the last trove of the list is below the least ratio.
    fn no_trove_under(&self) -> Result<(), Refusal>
        ensures { result
            ≡ ruled (trove_under (state_of self.now) (last_trove (state_of self.now))) }
    {
        let Some(account) = self.order.last() else {
            return Ok(());
        };
        let price = self.market().price;
        let (coll, debt) = self.entire(account).unwrap_or((0, 0));
        let left = u128::from(coll) * u128::from(price) * 100;
        let right = u128::from(MCR) * u128::from(debt) * u128::from(GWEI_PER_ETH);
        if left < right {
            return Err(Refusal::TroveUnder {
                account,
                left,
                right,
            });
        }
        Ok(())
    }

    pub(crate) fn plan_gain_to_trove(
        &self,
        account: u32,
        words: HintWords,
    ) -> Result<Forecast, Refusal>
        ensures { IsRuled (state_of self.now) (call.GainToTrove account words) result }
    {
        if self.no_deposit(account) {
            return Err(Refusal::NoDeposit { account });
        }
        let (balance, gain) = self.position(account);
        let had = self.entire(account);
        let plan = plan_gain(&self.market(), had, account, gain)?;
        Ok(Forecast {
            done: Done {
                kind: kinds::GAIN_TO_TROVE,
                values: [gain, plan.coll, 0, 0, 0, 0],
            },
            effect: Effect::Move(Move::GainToTrove {
                account,
                plan,
                words,
            }),
            events: PoolEvents::One([PoolEvent::Own {
                account,
                put: 0,
                paid: 0,
                gain,
                amount: balance,
            }]),
            changes: ListChanges::One([self.standing(account, plan.coll, plan.debt)]),
        })
    }

    /// LUSD from the account's wallet into its deposit; its gain comes into the wallet.
    pub(crate) fn apply_provide(&mut self, account: u32, lusd: u64)
        requires allowed { first_refusal (rules (state_of self.old) (call.Provide account lusd))
            ≡ None }
        requires range { account < ACCOUNTS }
        requires wallet { Contains self.old.room.wallets account }
        requires deposit { Contains self.old.room.deposits account }
        ensures { Changes self.old (call.Provide account lusd) self.new }
    {
        let gain = self.pool.provide(account, lusd);
        self.wallets.exchange(
            account,
            &Wallet { coll: 0, lusd },
            &Wallet {
                coll: gain,
                lusd: 0,
            },
        );
    }

    /// LUSD, no more than there is, and the gain from the account's deposit into its wallet.
    pub(crate) fn apply_withdraw(&mut self, account: u32, lusd: u64)
        requires allowed { first_refusal (rules (state_of self.old) (call.Withdraw account lusd))
            ≡ None }
        requires range { account < ACCOUNTS }
        requires room { Contains self.old.room.wallets account }
        ensures { Changes self.old (call.Withdraw account lusd) self.new }
    {
        let (paid, gain) = self.pool.withdraw(account, lusd).unwrap();
        self.wallets.pay(account, gain, paid);
    }

    /// The gain of the account's deposit moves into its trove, as it is planned.
    pub(crate) fn apply_gain_to_trove<L: Ledger>(
        &mut self,
        account: u32,
        plan: &Plan,
        hint: &Hint,
        steps: &mut Steps<L>,
    )
        requires allowed { (words : HintWords)
            × (first_refusal (rules (state_of self.old) (call.GainToTrove account words)) ≡ None) }
        requires terms { plan.now ≡ gaining_terms (market_of (state_of self.old))
            (or_nothing (entire_of (state_of self.old) account))
            (gain_of (state_of self.old) account) }
        requires range { account < ACCOUNTS }
        ensures made { (words : HintWords)
            → Changes self.old (call.GainToTrove account words) self.new }
        ensures few { TakesFew self.new.list hint.now (entry_in self.new.list account) steps.old
            steps.new }
        ensures any { steps.new ≤ steps.old + (length self.old.list + 4) }
    {
        self.pool.withdraw(account, 0).unwrap();
        let (pools, troves) = (&mut self.pools, &mut self.troves);
        change_trove(pools, troves, &mut self.order, account, plan, hint, steps);
    }
}
