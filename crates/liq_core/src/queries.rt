//! What the protocol tells of itself.

ghost use Rattle.std.specs.Prelude.{◌≡◌};
ghost use Rattle.liq_types.specs.declared.replies.Info.TheVariants as info;
ghost use Rattle.liq_types.specs.Totals.{market_of};
ghost use Rattle.liq_borrow.specs.Given.{IsMarket};
ghost use Rattle.liq_core.specs.Core.{state_of};
ghost use Rattle.liq_rule_step.specs.Queries.{trove_info, deposit_info, pools, system};
ghost use Rattle.liq_rule_step.specs.Step.{answer};
ghost use Rattle.liq_types.specs.Tables.{at};

use crate::engine::Protocol;
use liq_borrow::is_recovery;
use liq_troves::entire;
use liq_types::amounts::ACCOUNTS;
use liq_types::{Info, Market, Query, Refusal, Reply, Wallet};

impl Protocol {
    pub(crate) fn answer(&self, query: &Query) -> Reply
        ensures { result ≡ answer (state_of self.now) query.now }
    {
        match *query {
            Query::Wallet(account)
            | Query::Trove(account)
            | Query::Deposit(account)
            | Query::NextNumber(account)
                if account >= ACCOUNTS => { Reply::No(Refusal::AccountRange { value: account }) }
            Query::Wallet(account) => {
                let Wallet { coll, lusd } = self.wallet(account);
                Reply::Told(Info::Wallet { coll, lusd })
            }
            Query::Trove(account) => Reply::Told(self.trove_info(account)),
            Query::Pools => Reply::Told(self.pools_info()),
            Query::System => Reply::Told(self.system_info()),
            Query::NextNumber(client) => {
                let number = self.client(client).last.saturating_add(1);
                Reply::Told(Info::Next { number })
            }
            Query::Deposit(account) => Reply::Told(self.deposit_info(account)),
        }
    }

    fn trove_info(&self, account: u32) -> Info
        ensures { result ≡ trove_info (state_of self.now) (at (state_of self.now).troves account) }
    {
        match self.troves.get(account) {
            None => Info::NoTrove,
            Some(trove) => {
                let (coll, debt) = entire(trove, self.troves.sums());
                let stake = trove.stake;
                Info::Trove { coll, debt, stake }
            }
        }
    }

    fn deposit_info(&self, account: u32) -> Info
        ensures { result ≡ deposit_info (state_of self.now) account (at (state_of self.now).deposits
            account) }
    {
        if self.no_deposit(account) {
            return Info::NoDeposit;
        }
        let (balance, gain) = self.position(account);
        Info::Deposit { balance, gain }
    }

    fn pools_info(&self) -> Info
        ensures { result ≡ info.Pools (pools (state_of self.now)) }
    {
        let held = self.pools;
        let pool = self.pool.words();
        Info::Pools {
            pools: [
                held.active_coll,
                held.active_debt,
                held.default_coll,
                held.default_debt,
                held.reserve,
                held.surplus,
                held.fee_coll,
                held.fee_lusd,
                pool.total,
                pool.coll,
            ],
        }
    }

    /// What the rules on troves read.
    pub(crate) fn market(&self) -> Market
        ensures market { result ≡ market_of (state_of self.now) }
        ensures sound { IsMarket result }
    {
        Market {
            price: self.price,
            minute: self.minute,
            base: self.rate.base,
            fee_minute: self.rate.minute,
            limit: self.limit,
            total_coll: self.pools.active_coll + self.pools.default_coll,
            total_debt: self.pools.active_debt + self.pools.default_debt,
            troves: self.troves.count(),
        }
    }

    fn system_info(&self) -> Info
        ensures { result ≡ info.System (system (state_of self.now)) }
    {
        let market = self.market();
        let stakes = self.troves.sums().stakes;
        Info::System {
            words: [
                market.price,
                market.minute,
                market.base,
                market.fee_minute,
                u64::from(is_recovery(&market)),
                market.troves,
                stakes,
                market.total_coll,
                market.total_debt,
                self.records,
            ],
        }
    }
}
