//! An image written to its bytes.

ghost use Rattle.std.specs.Prelude.{◌≡◌, ◌∷◌, [], Ok, IfOk, OnOk, length, map};
ghost use Rattle.liq_types.specs.Image.{IsLimit};
ghost use Rattle.liq_types.specs.Length.{checkpoint_length, length_with};
ghost use Rattle.liq_types.specs.Soundness.{HasTables};
ghost use Rattle.liq_checkpoint.specs.Reading.{image_at};
ghost use Rattle.liq_checkpoint.specs.Spelling.{Puts, contents, words, tables, name, spelling};

use crate::numbers_out::{put_numbers, put_u128};
use crate::tables_out::{
    put_clients, put_deposits, put_sums, put_surpluses, put_troves, put_wallets,
};
use liq_disk_layout::name;
use liq_types::amounts::CHECKPOINT_BYTES_MOST;
use liq_types::{Image, NoMemory, RowCounts};
use std::alloc::{AllocError, Global};

/// The bytes of an image's checkpoint, which are read back as that image. They begin with
/// `LIQSTAT1` under the limit of version 1, and with `LIQSTAT2` under the other.
pub fn encode(alloc: Global, image: &Image) -> Result<Vec<u8>, NoMemory>
    requires tables { HasTables image.now }
    requires limit { IsLimit image.now.limit }
    ensures spelled { IfOk result (λ b. b.items ≡ spelling image.now) }
    ensures length { IfOk result (λ b. length b.items ≡ checkpoint_length image.now) }
    ensures read { IfOk result (λ b. image_at (length b.items) b.items ≡ Ok image.now) }
{
    write_image(alloc, image)
}

fn write_image(alloc: Global, image: &Image) -> Result<Vec<u8>, NoMemory>
    ensures { IfOk result (λ b. Puts (name image.now.limit) b.items (contents image.now)) }
{
    let room = counts(image)
        .checkpoint_bytes()
        .min(CHECKPOINT_BYTES_MOST as u128);
    let mut out = Vec::with_capacity(alloc, room as usize)?;
    out.extend_from_slice(&name(image.limit))?;
    put_words(&mut out, image)?;
    put_tables(&mut out, image)?;
    Ok(out)
}

// How many rows its tables have.
fn counts(image: &Image) -> RowCounts
    ensures { length_with result ≡ checkpoint_length image.now }
{
    RowCounts {
        wallets: image.wallets.rows().len() as u64,
        troves: image.troves.rows().len() as u64,
        surplus_rows: image.surplus_rows.rows().len() as u64,
        finished: image.finished.rows().len() as u64,
        deposits: image.deposits.rows().len() as u64,
        clients: image.clients.rows().len() as u64,
    }
}

fn put_words(out: &mut Vec<u8>, image: &Image) -> Result<(), AllocError>
    ensures { OnOk result (Puts out.old.items out.new.items (words image.now)) }
{
    let i = image;
    put_numbers(
        out,
        &[
            i.price,
            i.minute,
            i.base,
            i.fee_minute,
            i.generation,
            i.brought,
        ],
    )?;
    put_numbers(
        out,
        &[i.active_coll, i.active_debt, i.default_coll, i.default_debt],
    )?;
    put_numbers(out, &[i.reserve, i.surplus, i.fee_coll, i.fee_lusd])?;
    put_u128(out, i.sum_coll)?;
    put_u128(out, i.sum_debt)?;
    put_numbers(out, &[i.stakes, i.snap_stakes, i.snap_coll])?;
    put_u128(out, i.p)?;
    put_numbers(out, &[i.scale, i.epoch])?;
    put_u128(out, i.sum)?;
    put_numbers(out, &[i.total, i.pool_coll])?;
    Ok(())
}

fn put_tables(out: &mut Vec<u8>, image: &Image) -> Result<(), AllocError>
    ensures { OnOk result (Puts out.old.items out.new.items (tables image.now)) }
{
    put_wallets(out, &image.wallets)?;
    put_troves(out, &image.troves)?;
    put_surpluses(out, &image.surplus_rows)?;
    put_sums(out, &image.finished)?;
    put_deposits(out, &image.deposits)?;
    put_clients(out, &image.clients)?;
    Ok(())
}
