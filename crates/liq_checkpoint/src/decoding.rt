//! An image read from its bytes.

ghost use Rattle.std.specs.Prelude.{◌≡◌, ◌≤◌, ◌<◌, ◌^◌, ℕ, Ok, Err, IfOk, length};
ghost use Rattle.liq_types.specs.declared.image.Image.{Image};
ghost use Rattle.liq_checkpoint.specs.declared.image_bytes.ImageBytes.TheVariants.{Bad};
ghost use Rattle.liq_checkpoint.specs.Reading.{Gives, image_by, words_at, tables_at, image_at};
ghost use Rattle.liq_checkpoint.specs.Spelling.{HasCheckpoint, spelling};

use crate::image_bytes::ImageBytes;
use crate::numbers::{bad, limit_at, numbers_at, u128_at};
use crate::tables::{clients_at, deposits_at, sums_at, surpluses_at, troves_at, wallets_at};
use liq_types::{ClientRows, DepositRows, FinishedRows, Image, SurplusRows, TroveRows, WalletRows};
use std::alloc::Global;

/// The image that a checkpoint's bytes spell, all of them, under the limit for which its name
/// stands. `Bad` tells where the first field begins that cannot stand where it does, by its own
/// number and by what stands before it; the end, where bytes are missing; or the first byte that
/// follows.
pub fn decode(alloc: Global, bytes: &[u8]) -> Result<Image, ImageBytes>
    // An image that is read has a checkpoint, and the bytes are that.
    ensures found { IfOk result (λ i. HasCheckpoint i × (bytes.now ≡ spelling i)) }
    // Bytes that are the checkpoint of an image are read as that image, unless memory runs out.
    ensures only { (i : Image) → HasCheckpoint i → bytes.now ≡ spelling i
        → Gives (λ j. j) result (Ok i) }
    // Which answer comes, the place of a fault too, as far as memory goes.
    ensures exact { Gives (λ i. i) result (image_at (length bytes.now) bytes.now) }
    // The place of a fault is that of one of the bytes, or their end.
    ensures place { (place : ℕ) → result ≡ Err (Bad place) → (place ≤ length bytes.now)
        × (place < 2 ^ 63) }
{
    image_at(alloc, bytes.len() as u64, bytes)
}

#[tactic(auto, unfolding(crate::specs::Reading::image_at))]
fn image_at(alloc: Global, end: u64, at: &[u8]) -> Result<Image, ImageBytes>
    ensures { Gives (λ i. i) result (image_at end at.now) }
{
    let (limit, at) = limit_at(end, at)?;
    let (mut image, at) = words_at(alloc, end, limit, at)?;
    read_tables(alloc, end, &mut image, at)?;
    Ok(image)
}

// The tables behind the words, up to the end. Each is put into the image before the next is read,
// so that none is held beside it over a fault.
fn read_tables(alloc: Global, end: u64, image: &mut Image, at: &[u8]) -> Result<(), ImageBytes>
    ensures { Gives (λ _. image.new) result (tables_at end image.old at.now) }
{
    let (wallets, at) = wallets_at(alloc, end, at)?;
    image.wallets = wallets;
    let (troves, at) = troves_at(alloc, end, at)?;
    image.troves = troves;
    let (surplus_rows, at) = surpluses_at(alloc, end, at)?;
    image.surplus_rows = surplus_rows;
    let (finished, at) = sums_at(alloc, end, at)?;
    image.finished = finished;
    let (deposits, at) = deposits_at(alloc, end, at)?;
    image.deposits = deposits;
    let (clients, at) = clients_at(alloc, end, at)?;
    image.clients = clients;
    if !at.is_empty() {
        return Err(bad(end, at));
    }
    Ok(())
}

// The numbers of an image, in the order of its bytes: price, minutes and journal, the pools, what
// is redistributed, the stakes, and those of the Stability Pool.
#[derive(Drop)]
struct Words {
    times: [u64; 6],
    pools: [u64; 8],
    sum_coll: u128,
    sum_debt: u128,
    stakes: [u64; 3],
    p: u128,
    place: [u64; 2],
    sum: u128,
    deposited: [u64; 2],
}

// An image without rows.
#[tactic(auto, unfolding(crate::specs::Reading::words_at))]
fn words_at(alloc: Global, end: u64, limit: u64, at: &[u8]) -> Result<(Image, &[u8]), ImageBytes>
    ensures { Gives (λ x. (x.0, x.1.now)) result (words_at end limit at.now) }
{
    let (times, at) = numbers_at::<6>(end, at)?;
    let (pools, at) = numbers_at::<8>(end, at)?;
    let (sum_coll, at) = u128_at(end, at)?;
    let (sum_debt, at) = u128_at(end, at)?;
    let (stakes, at) = numbers_at::<3>(end, at)?;
    let (p, at) = u128_at(end, at)?;
    let (place, at) = numbers_at::<2>(end, at)?;
    let (sum, at) = u128_at(end, at)?;
    let (deposited, at) = numbers_at::<2>(end, at)?;
    let words = Words {
        times,
        pools,
        sum_coll,
        sum_debt,
        stakes,
        p,
        place,
        sum,
        deposited,
    };
    Ok((image_of(alloc, limit, &words), at))
}

// The image of these numbers, without rows.
fn image_of(alloc: Global, limit: u64, words: &Words) -> Image
    ensures { result ≡ image_by limit words.now }
{
    let [price, minute, base, fee_minute, generation, brought] = words.times;
    let [active_coll, active_debt, default_coll, default_debt, ..] = words.pools;
    let [.., reserve, surplus, fee_coll, fee_lusd] = words.pools;
    let [stakes, snap_stakes, snap_coll] = words.stakes;
    let [scale, epoch] = words.place;
    let [total, pool_coll] = words.deposited;
    Image {
        price,
        minute,
        base,
        fee_minute,
        generation,
        limit,
        brought,
        active_coll,
        active_debt,
        default_coll,
        default_debt,
        reserve,
        surplus,
        fee_coll,
        fee_lusd,
        sum_coll: words.sum_coll,
        sum_debt: words.sum_debt,
        stakes,
        snap_stakes,
        snap_coll,
        p: words.p,
        scale,
        epoch,
        sum: words.sum,
        total,
        pool_coll,
        wallets: WalletRows::new(alloc),
        troves: TroveRows::new(alloc),
        surplus_rows: SurplusRows::new(alloc),
        finished: FinishedRows::new(alloc),
        deposits: DepositRows::new(alloc),
        clients: ClientRows::new(alloc),
    }
}
