//! A row of each table, put behind bytes.

ghost use Rattle.std.specs.Prelude.{OnOk};
ghost use Rattle.liq_types.specs.ImageRows.{wallet_row, trove_row, surplus_row, finished_row, deposit_row, client_row};
ghost use Rattle.liq_checkpoint.specs.Spelling.{Puts, wallet, trove, surplus, finished, deposit, client};

use crate::numbers_out::{put_numbers, put_u8, put_u32, put_u64, put_u128};
use liq_types::{ClientRow, DepositRow, FinishedSum, SurplusRow, TroveRow, WalletRow};
use std::alloc::AllocError;

pub fn put_wallet(out: &mut Vec<u8>, row: &WalletRow) -> Result<(), AllocError>
    ensures { OnOk result (Puts out.old.items out.new.items (wallet (wallet_row row.now))) }
{
    put_u32(out, row.account)?;
    put_u64(out, row.coll)?;
    put_u64(out, row.lusd)?;
    Ok(())
}

pub fn put_trove(out: &mut Vec<u8>, row: &TroveRow) -> Result<(), AllocError>
    ensures { OnOk result (Puts out.old.items out.new.items (trove (trove_row row.now))) }
{
    put_u32(out, row.account)?;
    put_numbers(out, &[row.coll, row.debt, row.stake])?;
    put_u128(out, row.mark_coll)?;
    put_u128(out, row.mark_debt)?;
    Ok(())
}

pub fn put_surplus(out: &mut Vec<u8>, row: &SurplusRow) -> Result<(), AllocError>
    ensures { OnOk result (Puts out.old.items out.new.items (surplus (surplus_row row.now))) }
{
    put_u32(out, row.account)?;
    put_u64(out, row.coll)?;
    Ok(())
}

pub fn put_finished(out: &mut Vec<u8>, row: &FinishedSum) -> Result<(), AllocError>
    ensures { OnOk result (Puts out.old.items out.new.items (finished (finished_row row.now))) }
{
    put_numbers(out, &[row.epoch, row.scale])?;
    put_u128(out, row.sum)?;
    Ok(())
}

pub fn put_deposit(out: &mut Vec<u8>, row: &DepositRow) -> Result<(), AllocError>
    ensures { OnOk result (Puts out.old.items out.new.items (deposit (deposit_row row.now))) }
{
    put_u32(out, row.account)?;
    put_u64(out, row.amount)?;
    put_u128(out, row.p)?;
    put_u128(out, row.sum)?;
    put_numbers(out, &[row.scale, row.epoch])?;
    Ok(())
}

pub fn put_client(out: &mut Vec<u8>, row: &ClientRow) -> Result<(), AllocError>
    ensures { OnOk result (Puts out.old.items out.new.items (client (client_row row.now))) }
{
    put_u32(out, row.client)?;
    put_u64(out, row.last)?;
    put_u8(out, row.kind)?;
    put_numbers(out, &row.values)?;
    Ok(())
}
