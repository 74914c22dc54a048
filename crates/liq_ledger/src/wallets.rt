//! The wallets of all accounts: paid into, paid out of, and moved between. Each is within what may
//! be inside.

ghost use Rattle.std.specs.Prelude.{◌≡◌, ◌≤◌, ◌+◌, [], true, IsOk, IfOk, OnOk, OnErr, IsTrue, length};
ghost use Rattle.liq_types.specs.Payments.{credited_in, charged_in};
ghost use Rattle.liq_types.specs.State.{is_used_wallet, wallet_in};
ghost use Rattle.liq_types.specs.Tables.{rows};
ghost use Rattle.liq_types.specs.WellFormed.{Ascends};
ghost use Rattle.liq_tables.specs.WithRoom.{HasRoom, KeepsRoom};
ghost use Rattle.liq_ledger.specs.Refusals.{funding, charging, ruled};

use liq_tables::Reserved;
use liq_types::amounts::LIM;
use liq_types::{NoMemory, Refusal, Wallet, WalletRow, WalletRows};
use std::alloc::Global;
use std::marker::Model;

/// What each account has outside troves and deposits. Only [`Wallets::reserve`] takes memory.
#[derive(Drop)]
pub struct Wallets {
    table: Reserved<Wallet>,
}

impl Model for Wallets {
    ghost use Rattle.liq_types.specs.declared.figures.Wallet.{Wallet};
    ghost use Rattle.liq_tables.specs.WithRoom.{WithRoom};

    ghost Value = { WithRoom Wallet };

    ghost view = { λ w. w.table };
}

impl Wallets {
    /// Wallets of nothing.
    pub fn new(alloc: Global) -> Wallets
        ensures { result.rows ≡ [] }
    {
        Wallets {
            table: Reserved::new(alloc),
        }
    }

    /// Just these wallets, in ascending accounts. One of nothing is none.
    pub fn from_rows(alloc: Global, wallets: Vec<(u32, Wallet)>) -> Result<Wallets, NoMemory>
        requires { Ascends wallets.items }
        ensures { IfOk result (λ made. made.rows ≡ rows is_used_wallet wallets.items) }
    {
        let table = Reserved::from_entries(alloc, &wallets)?;
        Ok(Wallets { table })
    }

    /// The wallets that hold anything, in ascending accounts.
    pub fn rows(&self, alloc: Global) -> Result<WalletRows, NoMemory>
        ensures { IfOk result (λ rows. rows ≡ self.now.rows) }
    {
        let wallets = self.table.rows(alloc)?;
        let mut rows = WalletRows::new(alloc);
        for &(account, Wallet { coll, lusd }) in &wallets {
            rows.push(WalletRow {
                account,
                coll,
                lusd,
            })?;
        }
        Ok(rows)
    }

    /// How many wallets hold anything.
    pub fn count(&self) -> u64
        ensures { result ≡ length self.now.rows }
    {
        self.table.count()
    }

    /// Makes room for an account's wallet. What the accounts have stays, and so does all room that
    /// there was. Where there is no memory nothing changes; where there was room none is wanted.
    pub fn reserve(&mut self, account: u32) -> Result<(), NoMemory>
        ensures rows { self.new.rows ≡ self.old.rows }
        ensures room { OnOk result (HasRoom self.new account) }
        ensures kept { KeepsRoom self.old self.new }
        ensures had { HasRoom self.old account → IsOk result }
        ensures err { OnErr result (self.new ≡ self.old) }
    {
        self.table.reserve(account)
    }

    /// What an account has: collateral in gwei, LUSD in micro-LUSD. Where it has anything there is
    /// room for its wallet.
    pub fn read(&self, account: u32) -> Wallet
        ensures wallet { result ≡ wallet_in self.now.rows account }
        ensures room { is_used_wallet result ≡ true → HasRoom self.now account }
        ensures ascend { Ascends self.now.rows }
    {
        match self.table.get(account) {
            Some(wallet) => *wallet,
            None => Wallet { coll: 0, lusd: 0 },
        }
    }

    /// Collateral (gwei) into an account's wallet. `AmountLimit` comes where the wallet would have
    /// more than may be inside, and nothing changes then. The other wallets stay.
    pub fn fund(&mut self, account: u32, coll: u64) -> Result<(), Refusal>
        requires { HasRoom self.old account }
        ensures refused { result ≡ ruled (funding (wallet_in self.old.rows account) coll) }
        ensures moved { OnOk result (self.new.rows ≡ credited_in self.old.rows account coll 0) }
        ensures room { self.new.room ≡ self.old.room }
        ensures err { OnErr result (self.new ≡ self.old) }
    {
        let had = self.read(account);
        let sum = u128::from(had.coll) + u128::from(coll);
        if sum > u128::from(LIM) {
            return Err(Refusal::AmountLimit { sum, limit: LIM });
        }
        let coll = had.coll + coll;
        self.table.write(account, Wallet { coll, ..had });
        Ok(())
    }

    /// Collateral (gwei) out of an account's wallet. `ShortCollateral` comes where there is less,
    /// and nothing changes then. The other wallets stay.
    pub fn take(&mut self, account: u32, coll: u64) -> Result<(), Refusal>
        ensures refused { result ≡ ruled (charging (wallet_in self.old.rows account) coll 0) }
        ensures moved { OnOk result (self.new.rows ≡ charged_in self.old.rows account coll 0) }
        ensures room { self.new.room ≡ self.old.room }
        ensures err { OnErr result (self.new ≡ self.old) }
    {
        self.charge(account, coll, 0)
    }

    /// LUSD (micro-LUSD) from one account's wallet into another's, which may be the same.
    /// `ShortTokens` comes where the first has less, and nothing changes then. The other wallets
    /// stay.
    pub fn send(&mut self, from: u32, to: u32, lusd: u64) -> Result<(), Refusal>
        requires room { HasRoom self.old to }
        requires limit { lusd ≤ (wallet_in self.old.rows from).lusd
            → (wallet_in (charged_in self.old.rows from 0 lusd) to).lusd + lusd ≤ LIM }
        ensures refused { result ≡ ruled (charging (wallet_in self.old.rows from) 0 lusd) }
        ensures moved { OnOk result (self.new.rows
            ≡ credited_in (charged_in self.old.rows from 0 lusd) to 0 lusd) }
        ensures room { self.new.room ≡ self.old.room }
        ensures err { OnErr result (self.new ≡ self.old) }
    {
        self.charge(from, 0, lusd)?;
        let had = self.read(to);
        let lusd = had.lusd + lusd;
        self.table.write(to, Wallet { lusd, ..had });
        Ok(())
    }

    /// Collateral (gwei) and LUSD (micro-LUSD) out of an account's wallet. `ShortCollateral` and
    /// then `ShortTokens` come where there is less, and nothing changes then. The other wallets
    /// stay.
    pub fn charge(&mut self, account: u32, coll: u64, lusd: u64) -> Result<(), Refusal>
        ensures refused { result ≡ ruled (charging (wallet_in self.old.rows account) coll lusd) }
        ensures moved { OnOk result (self.new.rows ≡ charged_in self.old.rows account coll lusd) }
        ensures room { self.new.room ≡ self.old.room }
        ensures err { OnErr result (self.new ≡ self.old) }
    {
        let had = self.read(account);
        if had.coll < coll {
            return Err(Refusal::ShortCollateral {
                need: coll,
                have: had.coll,
            });
        }
        if had.lusd < lusd {
            return Err(Refusal::ShortTokens {
                need: lusd,
                have: had.lusd,
            });
        }
        let left = Wallet {
            coll: had.coll - coll,
            lusd: had.lusd - lusd,
        };
        self.table.write(account, left);
        Ok(())
    }

    /// Collateral (gwei) and LUSD (micro-LUSD) into an account's wallet. The other wallets stay.
    pub fn pay(&mut self, account: u32, coll: u64, lusd: u64)
        requires room { HasRoom self.old account }
        requires coll { (wallet_in self.old.rows account).coll + coll ≤ LIM }
        requires lusd { (wallet_in self.old.rows account).lusd + lusd ≤ LIM }
        ensures moved { self.new.rows ≡ credited_in self.old.rows account coll lusd }
        ensures room { self.new.room ≡ self.old.room }
    {
        let had = self.read(account);
        let sum = Wallet {
            coll: had.coll + coll,
            lusd: had.lusd + lusd,
        };
        self.table.write(account, sum);
    }

    /// What an owner gives leaves the wallet, and then what the owner gets comes into it. The other
    /// wallets stay.
    pub fn exchange(&mut self, account: u32, given: &Wallet, got: &Wallet)
        requires room { HasRoom self.old account }
        requires coll { given.now.coll ≤ (wallet_in self.old.rows account).coll }
        requires lusd { given.now.lusd ≤ (wallet_in self.old.rows account).lusd }
        requires coll_limit { (wallet_in (charged_in self.old.rows account given.now.coll
            given.now.lusd) account).coll + got.now.coll ≤ LIM }
        requires lusd_limit { (wallet_in (charged_in self.old.rows account given.now.coll
            given.now.lusd) account).lusd + got.now.lusd ≤ LIM }
        ensures rows { self.new.rows ≡ credited_in (charged_in self.old.rows account given.now.coll
            given.now.lusd) account got.now.coll got.now.lusd }
        ensures room { self.new.room ≡ self.old.room }
    {
        let had = self.read(account);
        let left = Wallet {
            coll: had.coll - given.coll + got.coll,
            lusd: had.lusd - given.lusd + got.lusd,
        };
        self.table.write(account, left);
    }
}
