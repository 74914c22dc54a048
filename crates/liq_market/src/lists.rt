//! The lists of accounts that a market tells.

ghost use Rattle.std.specs.Prelude.{◌≡◌, IfOk, drop, length, map};
ghost use Rattle.std.specs.Map.{keys_of};
ghost use Rattle.liq_types.specs.ImageRows.{deposit_row, wallet_row};
ghost use Rattle.liq_core.specs.Entries.{laid};

use liq_types::{DepositRow, DepositRows, NoMemory, WalletRow, WalletRows};
use std::alloc::Global;

/// A list of accounts that a market tells.
#[derive(Clone, Copy, PartialEq, Eq)]
pub enum AccountList {
    /// Those that have a trove, from the lowest ratio on.
    Troves,
    /// Those that have a deposit, ascending.
    Deposits,
    /// Those whose wallets hold anything, ascending.
    Wallets,
    /// Those that the last command touched of those that were accepted: whom its call names, in the
    /// order of its words, and then the others whose troves it moved in their order or closed.
    /// An account that the call names twice stands there twice.
    Touched,
}

/// Writes accounts into places, but not the first `passed` of them. How many there are.
pub(crate) fn lay(accounts: &[u32], passed: usize, places: &mut [u32]) -> u64
    ensures count { result ≡ length accounts.now }
    ensures written { places.new ≡ laid (drop passed accounts.now) places.old }
{
    let rest = &accounts[passed.min(accounts.len())..];
    let count = rest.len().min(places.len());
    places[..count].copy_from_slice(&rest[..count]);
    accounts.len() as u64
}

/// The accounts of deposits.
pub(crate) fn deposit_accounts(alloc: Global, rows: &DepositRows) -> Result<Vec<u32>, NoMemory>
    ensures { IfOk result (λ accounts. accounts.items ≡ keys_of rows.now) }
{
    Ok(rows.rows().iter().map(deposit_account).collect(alloc)?)
}

/// The accounts of wallets.
pub(crate) fn wallet_accounts(alloc: Global, rows: &WalletRows) -> Result<Vec<u32>, NoMemory>
    ensures { IfOk result (λ accounts. accounts.items ≡ keys_of rows.now) }
{
    Ok(rows.rows().iter().map(wallet_account).collect(alloc)?)
}

fn deposit_account(row: &DepositRow) -> u32
    ensures { result ≡ (deposit_row row.now).0 }
{
    row.account
}

fn wallet_account(row: &WalletRow) -> u32
    ensures { result ≡ (wallet_row row.now).0 }
{
    row.account
}
