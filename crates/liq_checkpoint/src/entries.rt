//! A row of each table, read from the front of bytes. `last` is the key of the row before it.

ghost use Rattle.std.specs.Prelude.{◌≡◌, ◌==◌, length};
ghost use Rattle.liq_types.specs.ImageRows.{wallet_row, trove_row, surplus_row, finished_row, deposit_row, client_row};
ghost use Rattle.liq_checkpoint.specs.Reading.{Gives, key_at, some_at, wallet_at, trove_at, surplus_at, finished_at, deposit_at, client_at};

use crate::image_bytes::ImageBytes;
use crate::numbers::{bad, numbers_at, u8_at, u32_at, u64_at, u128_at};
use liq_disk_layout::{epoch_follows, follows, place_follows, place_of_empty_wallet};
use liq_types::{ClientRow, DepositRow, FinishedSum, SurplusRow, TroveRow, WalletRow};

#[tactic(auto, unfolding(crate::specs::Reading::key_at))]
fn key_at(end: u64, last: Option<u32>, at: &[u8]) -> Result<(u32, &[u8]), ImageBytes>
    ensures { Gives (λ x. (x.0, x.1.now)) result (key_at end last at.now) }
{
    let (key, rest) = u32_at(end, at)?;
    if !follows(last, key) {
        return Err(bad(end, at));
    }
    Ok((key, rest))
}

#[tactic(auto, unfolding(crate::specs::Reading::some_at))]
fn some_at(end: u64, at: &[u8]) -> Result<(u64, &[u8]), ImageBytes>
    ensures { Gives (λ x. (x.0, x.1.now)) result (some_at end 8 at.now) }
{
    let (number, rest) = u64_at(end, at)?;
    if number == 0 {
        return Err(bad(end, at));
    }
    Ok((number, rest))
}

#[tactic(auto, unfolding(crate::specs::Reading::wallet_at))]
pub fn wallet_at(end: u64, last: Option<u32>, row: &[u8]) -> Result<(WalletRow, &[u8]), ImageBytes>
    ensures { Gives (λ x. (wallet_row x.0, x.1.now)) result (wallet_at end last row.now) }
{
    let (account, at) = key_at(end, last, row)?;
    let (coll, at) = u64_at(end, at)?;
    let (lusd, rest) = u64_at(end, at)?;
    if coll == 0 && lusd == 0 {
        return Err(ImageBytes::Bad {
            place: place_of_empty_wallet(end, row),
        });
    }
    let wallet = WalletRow {
        account,
        coll,
        lusd,
    };
    Ok((wallet, rest))
}

#[tactic(auto, unfolding(crate::specs::Reading::trove_at))]
pub fn trove_at(end: u64, last: Option<u32>, at: &[u8]) -> Result<(TroveRow, &[u8]), ImageBytes>
    ensures { Gives (λ x. (trove_row x.0, x.1.now)) result (trove_at end last at.now) }
{
    let (account, at) = key_at(end, last, at)?;
    let (coll, at) = u64_at(end, at)?;
    let (debt, at) = u64_at(end, at)?;
    let (stake, at) = u64_at(end, at)?;
    let (mark_coll, at) = u128_at(end, at)?;
    let (mark_debt, at) = u128_at(end, at)?;
    let row = TroveRow {
        account,
        coll,
        debt,
        stake,
        mark_coll,
        mark_debt,
    };
    Ok((row, at))
}

#[tactic(auto, unfolding(crate::specs::Reading::surplus_at))]
pub fn surplus_at(end: u64, last: Option<u32>, at: &[u8]) -> Result<(SurplusRow, &[u8]), ImageBytes>
    ensures { Gives (λ x. (surplus_row x.0, x.1.now)) result (surplus_at end last at.now) }
{
    let (account, at) = key_at(end, last, at)?;
    let (coll, at) = some_at(end, at)?;
    Ok((SurplusRow { account, coll }, at))
}

#[tactic(auto, unfolding(crate::specs::Reading::finished_at, crate::specs::Reading::some_at))]
pub fn finished_at(
    end: u64,
    last: Option<(u64, u64)>,
    at: &[u8],
) -> Result<(FinishedSum, &[u8]), ImageBytes>
    ensures { Gives (λ x. (finished_row x.0, x.1.now)) result (finished_at end last at.now) }
{
    let (epoch, rest) = u64_at(end, at)?;
    if !epoch_follows(last, epoch) {
        return Err(bad(end, at));
    }
    let (scale, at) = u64_at(end, rest)?;
    if !place_follows(last, (epoch, scale)) {
        return Err(bad(end, rest));
    }
    let (sum, rest) = u128_at(end, at)?;
    if sum == 0 {
        return Err(bad(end, at));
    }
    Ok((FinishedSum { epoch, scale, sum }, rest))
}

#[tactic(auto, unfolding(crate::specs::Reading::deposit_at))]
pub fn deposit_at(end: u64, last: Option<u32>, at: &[u8]) -> Result<(DepositRow, &[u8]), ImageBytes>
    ensures { Gives (λ x. (deposit_row x.0, x.1.now)) result (deposit_at end last at.now) }
{
    let (account, at) = key_at(end, last, at)?;
    let (amount, at) = some_at(end, at)?;
    let (p, at) = u128_at(end, at)?;
    let (sum, at) = u128_at(end, at)?;
    let (scale, at) = u64_at(end, at)?;
    let (epoch, at) = u64_at(end, at)?;
    let row = DepositRow {
        account,
        amount,
        p,
        sum,
        scale,
        epoch,
    };
    Ok((row, at))
}

#[tactic(auto, unfolding(crate::specs::Reading::client_at))]
pub fn client_at(end: u64, last: Option<u32>, at: &[u8]) -> Result<(ClientRow, &[u8]), ImageBytes>
    ensures { Gives (λ x. (client_row x.0, x.1.now)) result (client_at end last at.now) }
{
    let (client, at) = key_at(end, last, at)?;
    let (last, at) = some_at(end, at)?;
    let (kind, rest) = u8_at(end, at)?;
    if kind < 1 || 16 < kind {
        return Err(bad(end, at));
    }
    let (values, at) = numbers_at(end, rest)?;
    let row = ClientRow {
        client,
        last,
        kind,
        values,
    };
    Ok((row, at))
}
