//! Which accounts have a trove, a deposit or a wallet, a client's next number, and how long a
//! checkpoint is.

ghost use Rattle.std.specs.Prelude.{◌≡◌, ◌<◌, ◌^◌, IfOk, drop, length};
ghost use Rattle.liq_types.specs.declared.figures.Client.{Client as client_row};
ghost use Rattle.liq_types.specs.Length.{checkpoint_length};
ghost use Rattle.liq_types.specs.Ranked.{first_of, from_last};
ghost use Rattle.liq_types.specs.State.{State};
ghost use Rattle.liq_types.specs.Tables.{Table};
ghost use Rattle.liq_order.specs.Listed.{AreDistinct};
ghost use Rattle.liq_rule_step.specs.Queries.{next_number};
ghost use Rattle.liq_core.specs.Core.{StandsFor};
ghost use Rattle.liq_core.specs.Entries.{laid};

use crate::engine::Protocol;
use liq_order::Order;
use liq_types::{DepositRows, NoMemory, RowCounts, WalletRows};

impl Protocol {
    /// Writes the accounts of the troves into places, from the lowest ratio on: those behind the
    /// first `passed`, as many as there are places for. The other places stay. Tells how many
    /// troves there are.
    pub fn trove_accounts(&self, passed: usize, places: &mut [u32]) -> u64
        ensures count { result ≡ length self.now.list }
        ensures written { places.new ≡ laid (drop passed (from_last self.now.list)) places.old }
    {
        write_accounts(&self.order, passed, places);
        self.troves.count()
    }

    /// The deposits, in ascending accounts.
    pub fn deposit_rows(&self) -> Result<DepositRows, NoMemory>
        ensures { IfOk result (λ rows. rows ≡ self.now.image.deposits) }
    {
        self.pool.rows(self.alloc)
    }

    /// The wallets that hold anything, in ascending accounts.
    pub fn wallet_rows(&self) -> Result<WalletRows, NoMemory>
        ensures { IfOk result (λ rows. rows ≡ self.now.image.wallets) }
    {
        self.wallets.rows(self.alloc)
    }

    /// The number of a client's next new command, as a query tells it.
    pub fn next_number(&self, client: u32) -> u64
        ensures { (s : State) → StandsFor self.now s → result ≡ next_number s client }
    {
        self.client(client).last.saturating_add(1)
    }

    /// How many bytes a checkpoint of its image has.
    pub fn checkpoint_length(&self) -> u128
        ensures length { result ≡ checkpoint_length self.now.image }
        ensures few { result < 2 ^ 80 }
    {
        self.checkpoint_with(self.clients.count())
    }

    /// How many bytes a checkpoint has of an image with so many clients, and otherwise the
    /// protocol's rows.
    pub(crate) fn checkpoint_with(&self, clients: u64) -> u128
        ensures length { (rows : Table client_row) → clients ≡ length rows
            → result ≡ checkpoint_length (record self.now.image { clients = rows }) }
        ensures few { result < 2 ^ 80 }
    {
        let rows = RowCounts {
            wallets: self.wallets.count(),
            troves: self.troves.count(),
            surplus_rows: self.surplus.count(),
            finished: self.pool.finished_count(),
            deposits: self.pool.count(),
            clients,
        };
        rows.checkpoint_bytes()
    }
}

/// Writes the accounts of a list into places, from its end on, but not the first `passed` of them.
fn write_accounts(order: &Order, passed: usize, places: &mut [u32])
    requires { AreDistinct order.now.entries }
    ensures { places.new ≡ laid (drop passed (from_last order.now.entries)) places.old }
{
    let mut next = account_behind(order, passed);
    for at in 0..places.len() {
        let Some(account) = next else {
            return;
        };
        places[at] = account;
        next = order.before(account);
    }
}

/// The account behind the first `passed` of a list, from its end on.
fn account_behind(order: &Order, passed: usize) -> Option<u32>
    requires { AreDistinct order.now.entries }
    ensures { result ≡ first_of (drop passed (from_last order.now.entries)) }
{
    let mut next = order.last();
    for _ in 0..passed {
        let account = next?;
        next = order.before(account);
    }
    next
}
