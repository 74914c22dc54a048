//! The protocol's state, and its steps: planned by a command's verb, and applied.

ghost use Rattle.std.specs.Prelude.{◌≡◌, ◌≤◌, ◌<◌, ◌+◌, false, length, None};
ghost use Rattle.std.specs.List.{AllByRecursion, Contains};
ghost use Rattle.liq_types.specs.declared.requests.Call.{Call};
ghost use Rattle.liq_types.specs.declared.requests.Request.TheVariants.{Do, Ask};
ghost use Rattle.liq_types.specs.Image.{IsLimit};
ghost use Rattle.liq_types.specs.State.{State, opening, opening_with, client_of};
ghost use Rattle.liq_order.specs.Order.{trove_order};
ghost use Rattle.liq_trove_moves.specs.Steps.{TakesFew};
ghost use Rattle.liq_stability.specs.Words.{pool_words};
ghost use Rattle.liq_core.specs.Core.{Changes, IsWithin, StandsFor, current, state_of};
ghost use Rattle.liq_core.specs.Sound.{IsKeptRow};
ghost use Rattle.liq_core.specs.Effects.{IsMadeBy, IsMove, room_to_move, words_in};
ghost use Rattle.liq_core.specs.Steps.{entry_put, last_put, used_hint, words_of};
ghost use Rattle.liq_core.specs.Turn.{Forecasts, IsRuled};
ghost use Rattle.liq_types.specs.Verbs.{is_rotate};
ghost use Rattle.liq_rule_step.specs.Step.{rules, first_refusal, noted, step};

use crate::effects::{Effect, Move};
use crate::laws::lists_stand;
use crate::payments::plan_price;
use crate::ranges::check_accounts;
use crate::turns::{Forecast, PlanFault, Planned, Turn};
use liq_borrow::Change;
use liq_core_limits::{Generation, repeated_reply};
use liq_ledger::{Pools, Surplus, Wallets};
use liq_order::Order;
use liq_rate::Rate;
use liq_stability::{PoolWords, Stability};
use liq_tables::Reserved;
use liq_troves::Troves;
use liq_types::amounts::{ACCOUNTS, GENERATIONS_MOST, LIM, PRICE_OPENING, RECORDS_MOST};
use liq_types::{Call, Client, Command, Done, Hint, HintWords, Query, Refusal, Reply, Steps};
use std::alloc::Global;
use std::marker::Model;
use std::sync::ledger::Ledger;

/// The protocol: wallets, troves and their order, the Stability Pool, what owners may claim, pools
/// and fees, time and price, and the clients.
pub struct Protocol {
    pub(crate) alloc: Global,
    pub(crate) price: u64,
    pub(crate) minute: u64,
    pub(crate) rate: Rate,
    pub(crate) generation: u64,
    /// The most collateral that may be inside, and the most LUSD.
    pub(crate) limit: u64,
    pub(crate) records: u64,
    pub(crate) brought: u64,
    pub(crate) pools: Pools,
    pub(crate) wallets: Wallets,
    pub(crate) troves: Troves,
    pub(crate) order: Order,
    pub(crate) pool: Stability,
    pub(crate) surplus: Surplus,
    pub(crate) clients: Reserved<Client>,
}

// odd: drop written out
impl Drop for Protocol {
    fn drop(self) {
        let Protocol {
            alloc: _,
            price: _,
            minute: _,
            rate: _,
            generation: _,
            limit: _,
            records: _,
            brought: _,
            pools: _,
            wallets: _,
            troves: _,
            order: _,
            pool: _,
            surplus: _,
            clients: _,
        } = self;
    }
}

impl Model for Protocol {
    ghost use Rattle.liq_core.specs.Core.{Core};

    ghost Value = { Core };

    ghost use Rattle.liq_core.specs.Sound.{core_of, IsSound};

    ghost view = { core_of };

    ghost invariant = { λ p. IsSound p };
}

/// A client of which no command was accepted.
const NO_CLIENT: Client = Client {
    last: 0,
    kept: Done {
        kind: 0,
        values: [0; 6],
    },
};

/// Pools of nothing.
const NO_POOLS: Pools = Pools {
    active_coll: 0,
    active_debt: 0,
    default_coll: 0,
    default_debt: 0,
    reserve: 0,
    surplus: 0,
    fee_coll: 0,
    fee_lusd: 0,
};

impl Protocol {
    ghost use Rattle.liq_core.specs.Plan.{HasRoom, IsPlannedOn, MakesStep, RepliesByStep};
    ghost use Rattle.liq_core.specs.Turn.{Plans, IsKept, ForecastsCall};

    /// The protocol as it opens: nothing is inside.
    pub fn new(alloc: Global) -> Protocol
        ensures { StandsFor result opening }
    {
        Protocol::with_limit(alloc, LIM)
    }

    /// The protocol as it opens under one of the two limits. One whose journal is of version 1
    /// opens under the lesser, as the program that made the journal has it.
    pub fn with_limit(alloc: Global, limit: u64) -> Protocol
        requires { IsLimit limit }
        ensures { StandsFor result (opening_with limit) }
    {
        Protocol {
            alloc,
            price: PRICE_OPENING,
            minute: 0,
            rate: Rate { base: 0, minute: 0 },
            generation: 1,
            limit,
            records: 0,
            brought: 0,
            pools: NO_POOLS,
            wallets: Wallets::new(alloc),
            troves: Troves::new(alloc),
            order: Order::new(alloc),
            pool: Stability::new(alloc),
            surplus: Surplus::new(alloc),
            clients: Reserved::new(alloc),
        }
    }

    /// How many commands were accepted since the opening or the last rotation.
    pub fn records(&self) -> u64
        ensures { result ≡ self.now.records }
    {
        self.records
    }

    /// The journal's generation, from 1.
    pub fn generation(&self) -> u64
        ensures { result ≡ self.now.image.generation }
    {
        self.generation
    }

    /// The most collateral that may be inside (gwei), and the most LUSD in circulation
    /// (micro-LUSD): one of two numbers. A rotation makes it the greater.
    pub fn limit(&self) -> u64
        ensures { result ≡ self.now.image.limit }
    {
        self.limit
    }

    /// The journal's generation, as far as it has come.
    pub(crate) fn current(&self) -> Generation
        ensures counts { result ≡ current self.now }
        ensures within { result.number ≤ GENERATIONS_MOST }
    {
        Generation {
            number: self.generation,
            limit: self.limit,
            records: self.records,
        }
    }

    /// The six words of the Stability Pool.
    pub fn pool_words(&self) -> &PoolWords
        ensures { (s : State) → StandsFor self.now s → result.now ≡ pool_words s }
    {
        self.pool.words()
    }

    pub(crate) fn client(&self, client: u32) -> Client
        ensures { result ≡ client_of (state_of self.now) client }
    {
        match self.clients.get(client) {
            Some(row) => *row,
            None => NO_CLIENT,
        }
    }

    /// Rules on a command, and plans it where it is allowed. A refusal is the first whose condition
    /// holds, in the order of the rules; the last are the journal's limits. Only a list of troves
    /// may find no memory, and only where all that needs no list is passed.
    pub fn plan(&self, command: &Command) -> Result<Turn, PlanFault>
        ensures { (s : State) → StandsFor self.now s → Plans s command.now result }
    {
        // odd: field read; match for ?
        let _ = &self.records;
        match self.kept(command) {
            Ok(None) => {}
            Ok(Some(kept)) => return Ok(Turn::Again(kept)),
            Err(refusal) => return Err(PlanFault::No(refusal)),
        }
        let forecast = match self.plan_call(&command.call) {
            Ok(forecast) => forecast,
            Err(PlanFault::No(refusal)) => return Err(PlanFault::No(refusal)),
            Err(PlanFault::NoMemory) => return Err(PlanFault::NoMemory),
        };
        if let Some(refusal) = self.no_room(command) {
            return Err(PlanFault::No(refusal));
        }
        Ok(Turn::New(Planned {
            command: *command,
            forecast,
        }))
    }

    /// The reply that was kept of a command that comes again; nothing, where the command is its
    /// client's next one.
    fn kept(&self, command: &Command) -> Result<Option<Done>, Refusal>
        ensures { IsKept (state_of self.now) command.now result }
    {
        if command.client >= ACCOUNTS {
            let value = command.client;
            return Err(Refusal::AccountRange { value });
        }
        repeated_reply(&self.client(command.client), command.number)
    }

    /// Rules on a call, whatever its client and number: first on its accounts.
    fn plan_call(&self, call: &Call) -> Result<Forecast, PlanFault>
        ensures { ForecastsCall (state_of self.now) call.now result }
    {
        match check_accounts(call) {
            Ok(()) => self.plan_verb(call),
            Err(refusal) => Err(PlanFault::No(refusal)),
        }
    }

    /// Rules on what the call's verb tests.
    fn plan_verb(&self, call: &Call) -> Result<Forecast, PlanFault>
        ensures { Forecasts (state_of self.now) call.now result }
    {
        match *call {
            Call::Price(price) => ruled(plan_price(price)),
            Call::Advance(minutes) => ruled(self.plan_advance(minutes)),
            Call::Fund(account, coll) => ruled(self.plan_fund(account, coll)),
            Call::Take(account, coll) => ruled(self.plan_take(account, coll)),
            Call::Send(from, to, lusd) => ruled(self.plan_send(from, to, lusd)),
            Call::Open(account, coll, borrow, bound, words) => {
                ruled(self.plan_open(account, coll, borrow, bound, words))
            }
            Call::Adjust(account, coll_in, coll_out, borrow, repay, bound, words) => {
                let change = Change {
                    coll_in,
                    coll_out,
                    borrow,
                    repay,
                };
                ruled(self.plan_adjust(account, &change, bound, words))
            }
            Call::Close(account) => ruled(self.plan_close(account)),
            Call::Provide(account, lusd) => ruled(self.plan_provide(account, lusd)),
            Call::Withdraw(account, lusd) => ruled(self.plan_withdraw(account, lusd)),
            Call::GainToTrove(account, words) => ruled(self.plan_gain_to_trove(account, words)),
            Call::Liquidate(liquidator, account) => ruled(self.plan_liquidate(liquidator, account)),
            Call::LiquidateLowest(liquidator, count) => {
                self.plan_liquidate_lowest(liquidator, count)
            }
            Call::Redeem(account, lusd, bound, words) => {
                self.plan_redeem(account, lusd, bound, words)
            }
            Call::Claim(account) => ruled(self.plan_claim(account)),
            Call::Rotate => Ok(self.plan_rotate()),
        }
    }

    /// Makes the planned command's step. It takes no memory and cannot fail: the command was
    /// planned on this state, and its room was reserved. A hint changes neither the reply nor the
    /// image nor the list. The command's own one is used, where a word of it is there, else the
    /// given one. Where an account is put into the list, it takes at most four steps with a hint
    /// that is tight for it there, and with any other one as many more as there are troves; where
    /// none is put it takes no steps.
    pub fn apply<L: Ledger>(&mut self, planned: Planned, hint: &Hint, steps: &mut Steps<L>) -> Done
        requires planned { IsPlannedOn self.old planned }
        requires room { HasRoom self.old planned }
        ensures state { MakesStep self.old planned.command self.new }
        ensures reply { RepliesByStep self.old planned.command result }
        ensures list { (s : State) → StandsFor self.old s
            → self.new.list ≡ trove_order (step s (Do planned.command)).0 }
        ensures few { TakesFew self.new.list (used_hint (words_of planned.command.call) hint.now)
            (last_put planned.changes) steps.old steps.new }
        ensures any { steps.new ≤ steps.old + (length self.old.list + 4) }
    {
        self.apply_planned(&planned, hint, steps)
    }

    /// The same of a plan that its owner keeps.
    pub fn apply_planned<L: Ledger>(
        &mut self,
        planned: &Planned,
        hint: &Hint,
        steps: &mut Steps<L>,
    ) -> Done
        requires planned { IsPlannedOn self.old planned.now }
        requires room { HasRoom self.old planned.now }
        ensures state { MakesStep self.old planned.now.command self.new }
        ensures reply { RepliesByStep self.old planned.now.command result }
        ensures list { (s : State) → StandsFor self.old s
            → self.new.list ≡ trove_order (step s (Do planned.now.command)).0 }
        ensures few { TakesFew self.new.list (used_hint (words_of planned.now.command.call) hint.now)
            (last_put planned.now.changes) steps.old steps.new }
        ensures any { steps.new ≤ steps.old + (length self.old.list + 4) }
    {
        // odd: field read; law called
        let _ = &self.records;
        let command = &planned.command;
        let done = planned.forecast.done;
        match &planned.forecast.effect {
            Effect::Move(moved) => {
                self.change(moved, hint, steps);
                self.note(command, done);
            }
            Effect::Liquidate {
                liquidator,
                victims,
            } => self.apply_liquidate(command, done, *liquidator, victims.as_slice()),
            Effect::Rotate => self.apply_rotate(command, done),
        }
        lists_stand(self);
        done
    }

    /// Makes a move that some allowed call makes in this state. It is not yet counted.
    fn change<L: Ledger>(&mut self, moved: &Move, hint: &Hint, steps: &mut Steps<L>)
        requires allowed { IsMadeBy (state_of self.old) moved.now (λ call. first_refusal
            (rules (state_of self.old) call) ≡ None) }
        requires range { AllByRecursion (λ account. account < ACCOUNTS)
            (room_to_move moved.now).wallets }
        requires room { IsWithin (room_to_move moved.now) self.old.room }
        ensures made { (call : Call) → IsMove (state_of self.old) call moved.now
            → Changes self.old call self.new }
        ensures few { TakesFew self.new.list (used_hint (words_in moved.now) hint.now)
            (entry_put moved.now self.new.list) steps.old steps.new }
        ensures any { steps.new ≤ steps.old + (length self.old.list + 4) }
    {
        match *moved {
            Move::Price(price) => self.apply_price(price),
            Move::Advance(minutes) => self.apply_advance(minutes),
            Move::Fund { account, coll } => self.apply_fund(account, coll),
            Move::Take { account, coll } => self.apply_take(account, coll),
            Move::Send { from, to, lusd } => self.apply_send(from, to, lusd),
            Move::Open {
                account,
                borrow,
                ref plan,
                ref words,
            } => {
                let hint = hint_of(words, hint);
                self.apply_open(account, borrow, plan, &hint, steps);
            }
            Move::Adjust {
                account,
                ref change,
                ref plan,
                ref words,
            } => {
                let hint = hint_of(words, hint);
                self.apply_adjust(account, change, plan, &hint, steps);
            }
            Move::Close {
                account,
                repaid,
                coll,
            } => self.apply_close(account, repaid, coll),
            Move::Provide { account, lusd } => self.apply_provide(account, lusd),
            Move::Withdraw { account, lusd } => self.apply_withdraw(account, lusd),
            Move::GainToTrove {
                account,
                ref plan,
                ref words,
            } => {
                let hint = hint_of(words, hint);
                self.apply_gain_to_trove(account, plan, &hint, steps);
            }
            Move::Redeem {
                account,
                ref plan,
                ref words,
            } => {
                let hint = hint_of(words, hint);
                self.apply_redeem(account, plan, &hint, steps);
            }
            Move::Claim { account } => self.apply_claim(account),
        }
    }

    /// Counts a command that is no rotation, and keeps its reply under its number.
    fn note(&mut self, command: &Command, done: Done)
        requires stays { is_rotate command.now.call ≡ false }
        requires row { Contains self.old.room.clients command.now.client }
        requires number { 0 < command.now.number }
        requires few { self.old.records < RECORDS_MOST }
        requires range { command.now.client < ACCOUNTS }
        requires kept { IsKeptRow (record { last = command.now.number; kept = done }) }
        ensures state { (s : State) → StandsFor self.old s
            → StandsFor self.new (noted s command.now done) }
        ensures list { self.new.list ≡ self.old.list }
    {
        self.records += 1;
        let last = command.number;
        self.clients
            .write(command.client, Client { last, kept: done });
    }

    /// The answer to a query.
    pub fn query(&self, query: &Query) -> Reply
        ensures { (s : State) → StandsFor self.now s → (step s (Ask query.now)).1 ≡ result }
    {
        // odd: field read
        let _ = &self.records;
        self.answer(query)
    }
}

/// The place at which to look first: that of the command's own words, where at least one of them is
/// there, else the given one.
fn hint_of(words: &HintWords, given: &Hint) -> Hint
    ensures { result ≡ used_hint words.now given.now }
{
    if words.prev.is_none() && words.next.is_none() {
        return *given;
    }
    Hint {
        prev: words.prev,
        next: words.next,
        version: given.version,
    }
}

/// The same of a call that plans no list, for which there is always memory.
fn ruled(planned: Result<Forecast, Refusal>) -> Result<Forecast, PlanFault>
    ensures { (s : State) → (call : Call) → IsRuled s call planned → Forecasts s call result }
{
    match planned {
        Ok(forecast) => Ok(forecast),
        Err(refusal) => Err(PlanFault::No(refusal)),
    }
}
