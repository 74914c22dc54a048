//! The surplus that owners of closed troves claim.

ghost use Rattle.std.specs.Prelude.{◌≡◌, ◌<◌, None};
ghost use Rattle.std.specs.List.{Contains};
ghost use Rattle.liq_types.specs.declared.requests.Call.TheVariants as call;
ghost use Rattle.liq_core.specs.Core.{Changes, state_of};
ghost use Rattle.liq_rule_step.specs.Step.{rules, first_refusal};
ghost use Rattle.liq_core.specs.Turn.{IsRuled};

use crate::effects::{Effect, Move};
use crate::engine::Protocol;
use crate::kinds;
use crate::turns::Forecast;
use liq_types::amounts::ACCOUNTS;
use liq_types::{Done, Refusal};

impl Protocol {
    pub(crate) fn plan_claim(&self, account: u32) -> Result<Forecast, Refusal>
        ensures { IsRuled (state_of self.now) (call.Claim account) result }
    {
        let coll = self.surplus.read(account);
        if coll == 0 {
            return Err(Refusal::NoSurplus { account });
        }
        let done = Done {
            kind: kinds::CLAIM,
            values: [coll, 0, 0, 0, 0, 0],
        };
        Ok(Forecast::plain(done, Effect::Move(Move::Claim { account })))
    }

    /// All that the account may claim comes into its wallet.
    pub(crate) fn apply_claim(&mut self, account: u32)
        requires allowed { first_refusal (rules (state_of self.old) (call.Claim account)) ≡ None }
        requires range { account < ACCOUNTS }
        requires room { Contains self.old.room.wallets account }
        ensures { Changes self.old (call.Claim account) self.new }
    {
        let coll = self.surplus.take(account);
        self.pools.surplus -= coll;
        self.wallets.pay(account, coll, 0);
    }
}
