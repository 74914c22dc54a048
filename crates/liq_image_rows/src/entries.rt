//! What the tables of an image have, each row as a key and the rest. Without memory nothing is
//! made.

ghost use Rattle.std.specs.Prelude.{◌≡◌, map, IfOk};
ghost use Rattle.liq_types.specs.ImageRows.{wallet_row, trove_row, surplus_row, finished_row, deposit_row, client_row};

use liq_types::{
    Client, ClientRow, ClientRows, Deposit, DepositRow, DepositRows, Done, FinishedRows,
    FinishedSum, NoMemory, SurplusRow, SurplusRows, Trove, TroveRow, TroveRows, Wallet, WalletRow,
    WalletRows,
};
use std::alloc::Global;

/// The wallets of an image, in their order.
pub fn wallets(alloc: Global, rows: &WalletRows) -> Result<Vec<(u32, Wallet)>, NoMemory>
    ensures { IfOk result (λ made. made.items ≡ rows.now) }
{
    Ok(rows.rows().iter().map(wallet).collect(alloc)?)
}

/// The troves of an image, in their order.
pub fn troves(alloc: Global, rows: &TroveRows) -> Result<Vec<(u32, Trove)>, NoMemory>
    ensures { IfOk result (λ made. made.items ≡ rows.now) }
{
    Ok(rows.rows().iter().map(trove).collect(alloc)?)
}

/// What each owner may claim, in the order of an image.
pub fn surplus(alloc: Global, rows: &SurplusRows) -> Result<Vec<(u32, u64)>, NoMemory>
    ensures { IfOk result (λ made. made.items ≡ rows.now) }
{
    Ok(rows.rows().iter().map(claim).collect(alloc)?)
}

/// The deposits of an image, in their order.
pub fn deposits(alloc: Global, rows: &DepositRows) -> Result<Vec<(u32, Deposit)>, NoMemory>
    ensures { IfOk result (λ made. made.items ≡ rows.now) }
{
    Ok(rows.rows().iter().map(deposit).collect(alloc)?)
}

/// The clients of an image, in their order.
pub fn clients(alloc: Global, rows: &ClientRows) -> Result<Vec<(u32, Client)>, NoMemory>
    ensures { IfOk result (λ made. made.items ≡ rows.now) }
{
    Ok(rows.rows().iter().map(client).collect(alloc)?)
}

/// The finished sums of an image, in their order.
pub fn finished_sums(alloc: Global, rows: &FinishedRows) -> Result<Vec<FinishedSum>, NoMemory>
    ensures { IfOk result (λ made. map finished_row made.items ≡ rows.now) }
{
    Ok(rows.rows().iter().copied().collect(alloc)?)
}

fn wallet(row: &WalletRow) -> (u32, Wallet)
    ensures { result ≡ wallet_row row.now }
{
    let wallet = Wallet {
        coll: row.coll,
        lusd: row.lusd,
    };
    (row.account, wallet)
}

fn trove(row: &TroveRow) -> (u32, Trove)
    ensures { result ≡ trove_row row.now }
{
    let trove = Trove {
        coll: row.coll,
        debt: row.debt,
        stake: row.stake,
        mark_coll: row.mark_coll,
        mark_debt: row.mark_debt,
    };
    (row.account, trove)
}

fn claim(row: &SurplusRow) -> (u32, u64)
    ensures { result ≡ surplus_row row.now }
{
    (row.account, row.coll)
}

fn deposit(row: &DepositRow) -> (u32, Deposit)
    ensures { result ≡ deposit_row row.now }
{
    let deposit = Deposit {
        amount: row.amount,
        p: row.p,
        sum: row.sum,
        scale: row.scale,
        epoch: row.epoch,
    };
    (row.account, deposit)
}

fn client(row: &ClientRow) -> (u32, Client)
    ensures { result ≡ client_row row.now }
{
    let client = Client {
        last: row.last,
        kept: Done {
            kind: row.kind,
            values: row.values,
        },
    };
    (row.client, client)
}
