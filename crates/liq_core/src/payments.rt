//! Price and time, and payments: collateral that comes in and goes out, and LUSD that is sent.

ghost use Rattle.std.specs.Prelude.{◌≡◌, ◌≤◌, ◌<◌, ◌+◌, None, replicate};
ghost use Rattle.std.specs.List.{Contains};
ghost use Rattle.liq_types.specs.declared.requests.Call.TheVariants as call;
ghost use Rattle.liq_types.specs.State.{State, wallet_of};
ghost use Rattle.liq_core.specs.Core.{Changes, state_of};
ghost use Rattle.liq_rule_step.specs.Step.{rules, first_refusal};
ghost use Rattle.liq_core.specs.Turn.{IsRuled};

use crate::effects::{Effect, Move};
use crate::engine::Protocol;
use crate::kinds;
use crate::turns::Forecast;
use liq_types::amounts::{ACCOUNTS, MINUTE_MOST, PRICE_LEAST, PRICE_MOST};
use liq_types::{Done, Refusal, Wallet};

impl Protocol {
    pub(crate) fn wallet(&self, account: u32) -> Wallet
        ensures { result ≡ wallet_of (state_of self.now) account }
    {
        self.wallets.read(account)
    }

    pub(crate) fn plan_advance(&self, minutes: u64) -> Result<Forecast, Refusal>
        ensures { IsRuled (state_of self.now) (call.Advance minutes) result }
    {
        if minutes == 0 {
            return Err(Refusal::AmountZero);
        }
        let sum = u128::from(self.minute) + u128::from(minutes);
        if sum > u128::from(MINUTE_MOST) {
            let limit = MINUTE_MOST;
            return Err(Refusal::AmountLimit { sum, limit });
        }
        let done = Done {
            kind: kinds::ADVANCE,
            values: [self.minute + minutes, 0, 0, 0, 0, 0],
        };
        Ok(Forecast::plain(done, Effect::Move(Move::Advance(minutes))))
    }

    pub(crate) fn plan_fund(&self, account: u32, coll: u64) -> Result<Forecast, Refusal>
        ensures { IsRuled (state_of self.now) (call.Fund account coll) result }
    {
        match self.current().no_inflow(self.brought, coll) {
            Some(refusal) => Err(refusal),
            None => {
                let fund = Move::Fund { account, coll };
                Ok(Forecast::plain(done(kinds::FUND), Effect::Move(fund)))
            }
        }
    }

    pub(crate) fn plan_take(&self, account: u32, coll: u64) -> Result<Forecast, Refusal>
        ensures { IsRuled (state_of self.now) (call.Take account coll) result }
    {
        if coll == 0 {
            return Err(Refusal::AmountZero);
        }
        let have = self.wallet(account).coll;
        if have < coll {
            return Err(Refusal::ShortCollateral { need: coll, have });
        }
        let take = Move::Take { account, coll };
        Ok(Forecast::plain(done(kinds::TAKE), Effect::Move(take)))
    }

    pub(crate) fn plan_send(&self, from: u32, to: u32, lusd: u64) -> Result<Forecast, Refusal>
        ensures { IsRuled (state_of self.now) (call.Send from to lusd) result }
    {
        if lusd == 0 {
            return Err(Refusal::AmountZero);
        }
        let have = self.wallet(from).lusd;
        if have < lusd {
            return Err(Refusal::ShortTokens { need: lusd, have });
        }
        let send = Move::Send { from, to, lusd };
        Ok(Forecast::plain(done(kinds::SEND), Effect::Move(send)))
    }

    /// Sets the price.
    pub(crate) fn apply_price(&mut self, price: u64)
        requires { first_refusal (rules (state_of self.old) (call.Price price)) ≡ None }
        ensures { Changes self.old (call.Price price) self.new }
    {
        self.price = price;
    }

    /// Lets minutes pass.
    pub(crate) fn apply_advance(&mut self, minutes: u64)
        requires allowed { first_refusal (rules (state_of self.old) (call.Advance minutes)) ≡ None }
        requires limit { self.old.image.minute + minutes ≤ MINUTE_MOST }
        ensures { Changes self.old (call.Advance minutes) self.new }
    {
        self.minute += minutes;
    }

    /// Collateral from outside into a wallet.
    pub(crate) fn apply_fund(&mut self, account: u32, coll: u64)
        requires allowed { first_refusal (rules (state_of self.old) (call.Fund account coll))
            ≡ None }
        requires range { account < ACCOUNTS }
        requires room { Contains self.old.room.wallets account }
        requires limit { self.old.image.brought + coll ≤ self.old.image.limit }
        ensures { Changes self.old (call.Fund account coll) self.new }
    {
        self.brought += coll;
        self.wallets.pay(account, coll, 0);
    }

    /// Collateral from a wallet to the outside.
    pub(crate) fn apply_take(&mut self, account: u32, coll: u64)
        requires allowed { first_refusal (rules (state_of self.old) (call.Take account coll))
            ≡ None }
        requires range { account < ACCOUNTS }
        requires enough { coll ≤ (wallet_of (state_of self.old) account).coll }
        ensures { Changes self.old (call.Take account coll) self.new }
    {
        self.brought -= coll;
        self.wallets.take(account, coll).unwrap();
    }

    /// LUSD from one wallet into another, which may be the same.
    pub(crate) fn apply_send(&mut self, from: u32, to: u32, lusd: u64)
        requires allowed { first_refusal (rules (state_of self.old) (call.Send from to lusd))
            ≡ None }
        requires from { from < ACCOUNTS }
        requires to { to < ACCOUNTS }
        requires room { Contains self.old.room.wallets to }
        requires enough { lusd ≤ (wallet_of (state_of self.old) from).lusd }
        ensures { Changes self.old (call.Send from to lusd) self.new }
    {
        self.wallets.send(from, to, lusd).unwrap();
    }
}

/// Rules on a price: whatever the state, only its limits count.
pub(crate) fn plan_price(price: u64) -> Result<Forecast, Refusal>
    ensures { (s : State) → IsRuled s (call.Price price) result }
{
    if price < PRICE_LEAST || price > PRICE_MOST {
        return Err(Refusal::PriceRange { price });
    }
    let effect = Effect::Move(Move::Price(price));
    Ok(Forecast::plain(done(kinds::PRICE), effect))
}

/// A reply without values.
fn done(kind: u8) -> Done
    ensures { result ≡ record { kind = kind; values = replicate 6 0 } }
{
    Done {
        kind,
        values: [0; 6],
    }
}
