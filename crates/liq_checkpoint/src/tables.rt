//! The six tables of an image, each read row by row. A count is any number, so no room is made for
//! it.

ghost use Rattle.std.specs.Prelude.{◌≡◌, None};
ghost use Rattle.liq_checkpoint.specs.Reading.{Gives, rows_at, table_at, wallet_at, trove_at, surplus_at, finished_at, deposit_at, client_at};

use crate::entries::{client_at, deposit_at, finished_at, surplus_at, trove_at, wallet_at};
use crate::image_bytes::ImageBytes;
use crate::numbers::u64_at;
use liq_types::{ClientRows, DepositRows, FinishedRows, SurplusRows, TroveRows, WalletRows};
use std::alloc::Global;

#[tactic(auto, unfolding(crate::specs::Reading::table_at))]
pub fn wallets_at(alloc: Global, end: u64, at: &[u8]) -> Result<(WalletRows, &[u8]), ImageBytes>
    ensures { Gives (λ x. (x.0, x.1.now)) result (table_at (wallet_at end) end at.now) }
{
    let (count, at) = u64_at(end, at)?;
    wallet_rows(alloc, end, count, at)
}

fn wallet_rows(
    alloc: Global,
    end: u64,
    count: u64,
    at: &[u8],
) -> Result<(WalletRows, &[u8]), ImageBytes>
    ensures { Gives (λ x. (x.0, x.1.now)) result (rows_at (wallet_at end) count None at.now) }
{
    let mut rows = WalletRows::new(alloc);
    let mut last = None;
    let mut rest = at;
    for _ in 0..count {
        let (row, after) = wallet_at(end, last, rest)?;
        rows.push(row)?;
        last = Some(row.account);
        rest = after;
    }
    Ok((rows, rest))
}

#[tactic(auto, unfolding(crate::specs::Reading::table_at))]
pub fn troves_at(alloc: Global, end: u64, at: &[u8]) -> Result<(TroveRows, &[u8]), ImageBytes>
    ensures { Gives (λ x. (x.0, x.1.now)) result (table_at (trove_at end) end at.now) }
{
    let (count, at) = u64_at(end, at)?;
    trove_rows(alloc, end, count, at)
}

fn trove_rows(
    alloc: Global,
    end: u64,
    count: u64,
    at: &[u8],
) -> Result<(TroveRows, &[u8]), ImageBytes>
    ensures { Gives (λ x. (x.0, x.1.now)) result (rows_at (trove_at end) count None at.now) }
{
    let mut rows = TroveRows::new(alloc);
    let mut last = None;
    let mut rest = at;
    for _ in 0..count {
        let (row, after) = trove_at(end, last, rest)?;
        rows.push(row)?;
        last = Some(row.account);
        rest = after;
    }
    Ok((rows, rest))
}

#[tactic(auto, unfolding(crate::specs::Reading::table_at))]
pub fn surpluses_at(alloc: Global, end: u64, at: &[u8]) -> Result<(SurplusRows, &[u8]), ImageBytes>
    ensures { Gives (λ x. (x.0, x.1.now)) result (table_at (surplus_at end) end at.now) }
{
    let (count, at) = u64_at(end, at)?;
    surplus_rows(alloc, end, count, at)
}

fn surplus_rows(
    alloc: Global,
    end: u64,
    count: u64,
    at: &[u8],
) -> Result<(SurplusRows, &[u8]), ImageBytes>
    ensures { Gives (λ x. (x.0, x.1.now)) result (rows_at (surplus_at end) count None at.now) }
{
    let mut rows = SurplusRows::new(alloc);
    let mut last = None;
    let mut rest = at;
    for _ in 0..count {
        let (row, after) = surplus_at(end, last, rest)?;
        rows.push(row)?;
        last = Some(row.account);
        rest = after;
    }
    Ok((rows, rest))
}

#[tactic(auto, unfolding(crate::specs::Reading::table_at))]
pub fn sums_at(alloc: Global, end: u64, at: &[u8]) -> Result<(FinishedRows, &[u8]), ImageBytes>
    ensures { Gives (λ x. (x.0, x.1.now)) result (table_at (finished_at end) end at.now) }
{
    let (count, at) = u64_at(end, at)?;
    finished_rows(alloc, end, count, at)
}

fn finished_rows(
    alloc: Global,
    end: u64,
    count: u64,
    at: &[u8],
) -> Result<(FinishedRows, &[u8]), ImageBytes>
    ensures { Gives (λ x. (x.0, x.1.now)) result (rows_at (finished_at end) count None at.now) }
{
    let mut rows = FinishedRows::new(alloc);
    let mut last = None;
    let mut rest = at;
    for _ in 0..count {
        let (row, after) = finished_at(end, last, rest)?;
        rows.push(row)?;
        last = Some((row.epoch, row.scale));
        rest = after;
    }
    Ok((rows, rest))
}

#[tactic(auto, unfolding(crate::specs::Reading::table_at))]
pub fn deposits_at(alloc: Global, end: u64, at: &[u8]) -> Result<(DepositRows, &[u8]), ImageBytes>
    ensures { Gives (λ x. (x.0, x.1.now)) result (table_at (deposit_at end) end at.now) }
{
    let (count, at) = u64_at(end, at)?;
    deposit_rows(alloc, end, count, at)
}

fn deposit_rows(
    alloc: Global,
    end: u64,
    count: u64,
    at: &[u8],
) -> Result<(DepositRows, &[u8]), ImageBytes>
    ensures { Gives (λ x. (x.0, x.1.now)) result (rows_at (deposit_at end) count None at.now) }
{
    let mut rows = DepositRows::new(alloc);
    let mut last = None;
    let mut rest = at;
    for _ in 0..count {
        let (row, after) = deposit_at(end, last, rest)?;
        rows.push(row)?;
        last = Some(row.account);
        rest = after;
    }
    Ok((rows, rest))
}

#[tactic(auto, unfolding(crate::specs::Reading::table_at))]
pub fn clients_at(alloc: Global, end: u64, at: &[u8]) -> Result<(ClientRows, &[u8]), ImageBytes>
    ensures { Gives (λ x. (x.0, x.1.now)) result (table_at (client_at end) end at.now) }
{
    let (count, at) = u64_at(end, at)?;
    client_rows(alloc, end, count, at)
}

fn client_rows(
    alloc: Global,
    end: u64,
    count: u64,
    at: &[u8],
) -> Result<(ClientRows, &[u8]), ImageBytes>
    ensures { Gives (λ x. (x.0, x.1.now)) result (rows_at (client_at end) count None at.now) }
{
    let mut rows = ClientRows::new(alloc);
    let mut last = None;
    let mut rest = at;
    for _ in 0..count {
        let (row, after) = client_at(end, last, rest)?;
        rows.push(row)?;
        last = Some(row.client);
        rest = after;
    }
    Ok((rows, rest))
}
