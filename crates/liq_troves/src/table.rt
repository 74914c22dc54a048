//! The troves of all accounts, and the sums beside them. No trove's marks pass the sums, and the
//! stakes that the sums count are those of the rows.

ghost use Rattle.std.specs.Prelude.{◌≡◌, ℕ, ◌+◌, ◌≤◌, [], None, Some, IsOk, IsSome, IfSome, IfOk, OnOk, OnSome, MatchResult, length, ◌∷◌, option_copied, is_ok, if◌then◌else◌};
ghost use Rattle.liq_types.specs.Rules.{first_refusal};
ghost use Rattle.liq_types.specs.Tables.{Table, at, without};
ghost use Rattle.liq_types.specs.WellFormed.{Ascends};
ghost use Rattle.liq_tables.specs.WithRoom.{HasRoom, KeepsRoom};
ghost use Rattle.liq_troves.specs.Kept.{IsKept, AreSoundRows, coll_in};
ghost use Rattle.liq_troves.specs.Rows.{beside, set_in, set_row, stakes_in, spread_rules, sums_spread, sums_snapped};

use crate::amounts::{raised, stake_for};
use crate::sums::Sums;
use liq_tables::Reserved;
use liq_types::amounts::{LIM, SUM_MOST};
use liq_types::{NoMemory, Refusal, Trove, TroveRow, TroveRows};
use std::alloc::Global;
use std::marker::Model;

/// The trove of each account that has one, and the sums. Contracts see the rows in ascending
/// accounts, the accounts that have room for a trove, and the sums; room for a trove is none.
#[derive(Drop)]
pub struct Troves {
    table: Reserved<Trove>,
    sums: Sums,
    count: u64,
}

impl Model for Troves {
    ghost use Rattle.liq_troves.specs.Kept.{Kept, AreKept};

    ghost Value = { Kept };

    ghost view = { λ t. record { table = t.table; sums = t.sums } };

    ghost invariant = { λ t. AreKept t.table.rows t.sums t.count };
}

impl Troves {
    /// No troves, and sums of nothing.
    pub fn new(alloc: Global) -> Troves
        ensures rows { result.table.rows ≡ [] }
        ensures sums { result.sums ≡ record {
          coll = 0;
          debt = 0;
          stakes = 0;
          snap_stakes = 0;
          snap_coll = 0;
        } }
    {
        Troves {
            table: Reserved::new(alloc),
            sums: Sums {
                coll: 0,
                debt: 0,
                stakes: 0,
                snap_stakes: 0,
                snap_coll: 0,
            },
            count: 0,
        }
    }

    /// Makes room for a trove of the account, so that [`Troves::set`] takes no memory. Rows and
    /// sums stay, also where there is no memory, and so does all room that there was; where there
    /// was room none is wanted.
    pub fn reserve(&mut self, account: u32) -> Result<(), NoMemory>
        ensures rows { self.new.table.rows ≡ self.old.table.rows }
        ensures sums { self.new.sums ≡ self.old.sums }
        ensures room { OnOk result (HasRoom self.new.table account) }
        ensures kept { KeepsRoom self.old.table self.new.table }
        ensures had { HasRoom self.old.table account → IsOk result }
    {
        self.table.reserve(account)
    }

    /// The account's trove, if it has one: by the sums of now, with a stake from 1 to its
    /// collateral.
    pub fn get(&self, account: u32) -> Option<&Trove>
        ensures row { option_copied result ≡ at self.now.table.rows account }
        ensures kept { IfSome result (λ t. IsKept self.now.sums.coll self.now.sums.debt t.now) }
        ensures room { OnSome result (HasRoom self.now.table account) }
    {
        self.table.get(account)
    }

    /// How many accounts have a trove.
    pub fn count(&self) -> u64
        ensures { result ≡ length self.now.table.rows }
    {
        self.count
    }

    /// The troves, in ascending accounts.
    pub fn rows(&self, alloc: Global) -> Result<TroveRows, NoMemory>
        ensures { IfOk result (λ rows. rows ≡ self.now.table.rows) }
    {
        let troves = self.table.rows(alloc)?;
        let mut rows = TroveRows::new(alloc);
        for &(account, trove) in &troves {
            rows.push(TroveRow {
                account,
                coll: trove.coll,
                debt: trove.debt,
                stake: trove.stake,
                mark_coll: trove.mark_coll,
                mark_debt: trove.mark_debt,
            })?;
        }
        Ok(rows)
    }

    /// The sums, which are within their limit, and the stakes of all troves.
    pub fn sums(&self) -> &Sums
        ensures sums { result.now ≡ self.now.sums }
        ensures stakes { result.now.stakes ≡ stakes_in self.now.table.rows }
        ensures coll { result.now.coll ≤ SUM_MOST }
        ensures debt { result.now.debt ≤ SUM_MOST }
    {
        &self.sums
    }

    /// An operation of the account's owner: the trove has these amounts, in gwei and micro-LUSD,
    /// with nothing pending. Where there was none there is one now. Answers its row.
    pub fn set(&mut self, account: u32, coll: u64, debt: u64) -> Trove
        requires room { HasRoom self.old.table account }
        requires some { 1 ≤ coll }
        requires limit { coll_in (set_in self.old.sums self.old.table.rows account coll debt)
            ≤ LIM }
        ensures row { result ≡ set_row self.old.sums coll debt }
        ensures stake { 1 ≤ result.stake }
        ensures mark { result.mark_debt ≤ SUM_MOST }
        ensures rows { self.new.table.rows ≡ set_in self.old.sums self.old.table.rows account
            coll debt }
        ensures room { self.new.table.room ≡ self.old.table.room }
        ensures sums { self.new.sums ≡ beside self.old.sums self.new.table.rows }
    {
        let row = self.row_for(coll, debt);
        let (count, stakes) = self.others(account);
        self.table.write(account, row);
        self.count = count + 1;
        self.sums.stakes = stakes + row.stake;
        row
    }

    /// The row that an operation of its owner writes, with these amounts in gwei and micro-LUSD.
    pub fn row_for(&self, coll: u64, debt: u64) -> Trove
        requires { 1 ≤ coll }
        ensures row { result ≡ set_row self.now.sums coll debt }
        ensures stake { 1 ≤ result.stake }
        ensures mark { result.mark_debt ≤ SUM_MOST }
    {
        Trove {
            coll,
            debt,
            stake: stake_for(&self.sums, coll),
            mark_coll: self.sums.coll,
            mark_debt: self.sums.debt,
        }
    }

    /// The number and the stakes of the other accounts' troves.
    fn others(&self, account: u32) -> (u64, u64)
        ensures count { result.0 ≡ length (without self.now.table.rows account) }
        ensures stakes { result.1 ≡ stakes_in (without self.now.table.rows account) }
    {
        match self.table.get(account) {
            Some(trove) => (self.count - 1, self.sums.stakes - trove.stake),
            None => (self.count, self.sums.stakes),
        }
    }

    /// Takes the account's trove out. The room stays, which there is where there is a trove.
    pub fn remove(&mut self, account: u32) -> Trove
        requires { IsSome (at self.old.table.rows account) }
        ensures row { Some result ≡ at self.old.table.rows account }
        ensures rows { self.new.table.rows ≡ without self.old.table.rows account }
        ensures room { self.new.table.room ≡ self.old.table.room }
        ensures had { HasRoom self.old.table account }
        ensures sums { self.new.sums ≡ beside self.old.sums self.new.table.rows }
    {
        let trove = match self.table.take(account) {
            Some(trove) => trove,
            None => unreachable!(),
        };
        self.count -= 1;
        self.sums.stakes -= trove.stake;
        trove
    }

    /// Gives collateral (gwei) and debt (micro-LUSD) to all troves by their stakes: the sums rise.
    /// Refused where a sum would pass its limit, the collateral's first; then nothing changes.
    pub fn redistribute(&mut self, coll: u64, debt: u64) -> Result<(), Refusal>
        requires stakes { 1 ≤ self.old.sums.stakes }
        requires coll { coll ≤ LIM }
        requires debt { debt ≤ LIM }
        ensures answer { MatchResult result
            (λ _. first_refusal (spread_rules self.old.sums coll debt) ≡ None)
            (λ refusal. first_refusal (spread_rules self.old.sums coll debt) ≡ Some refusal) }
        ensures sums { self.new.sums ≡ (if is_ok result then sums_spread self.old.sums coll debt
            else self.old.sums) }
        ensures table { self.new.table ≡ self.old.table }
    {
        let stakes = self.sums.stakes;
        let sum_coll = raised(self.sums.coll, coll, stakes)?;
        let sum_debt = raised(self.sums.debt, debt, stakes)?;
        self.sums.coll = sum_coll;
        self.sums.debt = sum_debt;
        Ok(())
    }

    /// From now on stakes are made by the stakes of now and this collateral of all troves, in gwei.
    pub fn snapshot(&mut self, total_coll: u64)
        requires { coll_in self.old.table.rows ≤ total_coll }
        ensures sums { self.new.sums ≡ sums_snapped self.old.sums total_coll }
        ensures table { self.new.table ≡ self.old.table }
    {
        self.sums.snap_stakes = self.sums.stakes;
        self.sums.snap_coll = total_coll;
    }

    /// Just these troves and sums, as a sound image has them.
    pub fn from_rows(alloc: Global, rows: Vec<(u32, Trove)>, sums: Sums) -> Result<Troves, NoMemory>
        requires { AreSoundRows rows.items sums }
        ensures rows { IfOk result (λ t. t.table.rows ≡ rows.items) }
        ensures sums { IfOk result (λ t. t.sums ≡ sums) }
    {
        let table = Reserved::from_entries(alloc, &rows)?;
        let count = rows.len() as u64;
        Ok(Troves { table, sums, count })
    }
}
