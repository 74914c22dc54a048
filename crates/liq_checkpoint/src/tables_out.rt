//! The six tables of an image, each put behind bytes: a count, and its rows.

ghost use Rattle.std.specs.Prelude.{OnOk};
ghost use Rattle.liq_checkpoint.specs.Spelling.{Puts, table, wallet, trove, surplus, finished, deposit, client};

use crate::entries_out::{
    put_client, put_deposit, put_finished, put_surplus, put_trove, put_wallet,
};
use crate::numbers_out::put_u64;
use liq_types::{ClientRows, DepositRows, FinishedRows, SurplusRows, TroveRows, WalletRows};
use std::alloc::AllocError;

pub fn put_wallets(out: &mut Vec<u8>, wallets: &WalletRows) -> Result<(), AllocError>
    ensures { OnOk result (Puts out.old.items out.new.items (table wallet wallets.now)) }
{
    let rows = wallets.rows();
    put_u64(out, rows.len() as u64)?;
    for row in rows {
        put_wallet(out, row)?;
    }
    Ok(())
}

pub fn put_troves(out: &mut Vec<u8>, troves: &TroveRows) -> Result<(), AllocError>
    ensures { OnOk result (Puts out.old.items out.new.items (table trove troves.now)) }
{
    let rows = troves.rows();
    put_u64(out, rows.len() as u64)?;
    for row in rows {
        put_trove(out, row)?;
    }
    Ok(())
}

pub fn put_surpluses(out: &mut Vec<u8>, surpluses: &SurplusRows) -> Result<(), AllocError>
    ensures { OnOk result (Puts out.old.items out.new.items (table surplus surpluses.now)) }
{
    let rows = surpluses.rows();
    put_u64(out, rows.len() as u64)?;
    for row in rows {
        put_surplus(out, row)?;
    }
    Ok(())
}

pub fn put_sums(out: &mut Vec<u8>, sums: &FinishedRows) -> Result<(), AllocError>
    ensures { OnOk result (Puts out.old.items out.new.items (table finished sums.now)) }
{
    let rows = sums.rows();
    put_u64(out, rows.len() as u64)?;
    for row in rows {
        put_finished(out, row)?;
    }
    Ok(())
}

pub fn put_deposits(out: &mut Vec<u8>, deposits: &DepositRows) -> Result<(), AllocError>
    ensures { OnOk result (Puts out.old.items out.new.items (table deposit deposits.now)) }
{
    let rows = deposits.rows();
    put_u64(out, rows.len() as u64)?;
    for row in rows {
        put_deposit(out, row)?;
    }
    Ok(())
}

pub fn put_clients(out: &mut Vec<u8>, clients: &ClientRows) -> Result<(), AllocError>
    ensures { OnOk result (Puts out.old.items out.new.items (table client clients.now)) }
{
    let rows = clients.rows();
    put_u64(out, rows.len() as u64)?;
    for row in rows {
        put_client(out, row)?;
    }
    Ok(())
}
