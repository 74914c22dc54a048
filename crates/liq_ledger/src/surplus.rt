//! What owners of closed troves may claim.

ghost use Rattle.std.specs.Prelude.{◌≡◌, ◌≤◌, ◌+◌, [], IsOk, IfOk, OnOk, length};
ghost use Rattle.std.specs.List.{All};
ghost use Rattle.liq_types.specs.Payments.{surplus_added_in, surplus_taken_in};
ghost use Rattle.liq_types.specs.State.{surplus_in};
ghost use Rattle.liq_types.specs.Tables.{rows};
ghost use Rattle.liq_types.specs.WellFormed.{Ascends};
ghost use Rattle.liq_tables.specs.Rows.{is_used_amount};
ghost use Rattle.liq_tables.specs.WithRoom.{HasRoom, KeepsRoom};

use liq_tables::Reserved;
use liq_types::amounts::LIM;
use liq_types::{NoMemory, SurplusRow, SurplusRows};
use std::alloc::Global;
use std::marker::Model;

/// The collateral (gwei) that each owner of a closed trove may claim. Only [`Surplus::reserve`]
/// takes memory.
#[derive(Drop)]
pub struct Surplus {
    table: Reserved<u64>,
}

impl Model for Surplus {
    ghost use Rattle.std.specs.Prelude.{ℕ};
    ghost use Rattle.liq_tables.specs.WithRoom.{WithRoom};

    ghost Value = { WithRoom ℕ };

    ghost view = { λ s. s.table };
}

impl Surplus {
    /// Nothing to claim.
    pub fn new(alloc: Global) -> Surplus
        ensures { result.rows ≡ [] }
    {
        Surplus {
            table: Reserved::new(alloc),
        }
    }

    /// Just these amounts, in ascending accounts. Nothing is none.
    pub fn from_rows(alloc: Global, amounts: Vec<(u32, u64)>) -> Result<Surplus, NoMemory>
        requires { Ascends amounts.items }
        ensures { IfOk result (λ made. made.rows ≡ rows is_used_amount amounts.items) }
    {
        let table = Reserved::from_entries(alloc, &amounts)?;
        Ok(Surplus { table })
    }

    /// What may be claimed, in ascending accounts.
    pub fn rows(&self, alloc: Global) -> Result<SurplusRows, NoMemory>
        ensures { IfOk result (λ rows. rows ≡ self.now.rows) }
    {
        let surplus = self.table.rows(alloc)?;
        let mut rows = SurplusRows::new(alloc);
        for &(account, coll) in &surplus {
            rows.push(SurplusRow { account, coll })?;
        }
        Ok(rows)
    }

    /// How many accounts may claim anything.
    pub fn count(&self) -> u64
        ensures { result ≡ length self.now.rows }
    {
        self.table.count()
    }

    /// Makes room for these accounts. What may be claimed stays, also where there is no memory, and
    /// so does all room that there was. Where there was room for all none is wanted.
    pub fn reserve(&mut self, accounts: &[u32]) -> Result<(), NoMemory>
        ensures rows { self.new.rows ≡ self.old.rows }
        ensures room { OnOk result (All (HasRoom self.new) accounts.now) }
        ensures kept { KeepsRoom self.old self.new }
        ensures had { All (HasRoom self.old) accounts.now → IsOk result }
    {
        for &account in accounts {
            self.table.reserve(account)?;
        }
        Ok(())
    }

    /// Adds to what an account may claim. What the others may claim stays.
    pub fn add(&mut self, account: u32, coll: u64)
        requires room { HasRoom self.old account }
        requires limit { surplus_in self.old.rows account + coll ≤ LIM }
        ensures added { self.new.rows ≡ surplus_added_in self.old.rows account coll }
        ensures room { self.new.room ≡ self.old.room }
    {
        let sum = self.read(account) + coll;
        self.table.write(account, sum);
    }

    /// Takes all that an account may claim, 0 where there is nothing. What the others may claim
    /// stays.
    pub fn take(&mut self, account: u32) -> u64
        ensures claimed { result ≡ surplus_in self.old.rows account }
        ensures taken { self.new.rows ≡ surplus_taken_in self.old.rows account }
        ensures room { self.new.room ≡ self.old.room }
    {
        self.table.take(account).unwrap_or(0)
    }

    /// What an account may claim, 0 where there is nothing.
    pub fn read(&self, account: u32) -> u64
        ensures { result ≡ surplus_in self.now.rows account }
    {
        match self.table.get(account) {
            Some(coll) => *coll,
            None => 0,
        }
    }
}
