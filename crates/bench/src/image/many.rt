//! The checkpoint of many accounts, each with a wallet, a trove and a deposit.

use std::alloc::{AllocError, Global};

const ONE: u64 = 1_000_000_000_000_000_000;

/// What a trove owes, in micro-LUSD: what its owner's wallet has, what its owner's deposit has, and
/// the reserve.
const DEBT: u64 = 2_200_000_000;

const LUSD: u64 = 1_000_000_000;

const RESERVE: u64 = 200_000_000;

/// What a trove has, in gwei. The troves' list is in another order than their accounts.
fn coll_of(account: u32) -> u64 {
    4_000_000_000 + u64::from(account) * 7_919 % 100_003
}

/// The words before the tables. A number of 16 bytes is two of them.
fn words(accounts: u32) -> [u64; 29] {
    let count = u64::from(accounts);
    let mut coll: u64 = 0;
    for account in 0..accounts {
        coll = coll.wrapping_add(coll_of(account));
    }
    [
        // Price, clock, base rate, generation, and the collateral inside, of which each wallet has
        // one gwei.
        1_000_000_000,
        0,
        0,
        0,
        2,
        coll.wrapping_add(count),
        // The pools.
        coll,
        count * DEBT,
        0,
        0,
        count * RESERVE,
        0,
        0,
        0,
        // Nothing was redistributed.
        0,
        0,
        0,
        0,
        coll,
        0,
        0,
        // The Stability Pool.
        0,
        ONE,
        0,
        0,
        0,
        0,
        count * LUSD,
        0,
    ]
}

/// The checkpoint of so many accounts, from 0 on.
pub fn checkpoint(alloc: Global, accounts: u32) -> Result<Vec<u8>, AllocError> {
    let mut out = Vec::from_slice(alloc, b"LIQSTAT2")?;
    put(&mut out, &words(accounts))?;
    put_wallets(&mut out, accounts)?;
    put_troves(&mut out, accounts)?;
    // No surplus, and no finished sum.
    put(&mut out, &[0, 0])?;
    put_deposits(&mut out, accounts)?;
    // No client.
    put(&mut out, &[0])?;
    Ok(out)
}

fn put(out: &mut Vec<u8>, numbers: &[u64]) -> Result<(), AllocError> {
    for number in numbers {
        out.extend_from_slice(&number.to_be_bytes())?;
    }
    Ok(())
}

fn put_row(out: &mut Vec<u8>, account: u32, numbers: &[u64]) -> Result<(), AllocError> {
    out.extend_from_slice(&account.to_be_bytes())?;
    put(out, numbers)
}

fn put_wallets(out: &mut Vec<u8>, accounts: u32) -> Result<(), AllocError> {
    put(out, &[u64::from(accounts)])?;
    for account in 0..accounts {
        put_row(out, account, &[1, LUSD])?;
    }
    Ok(())
}

fn put_troves(out: &mut Vec<u8>, accounts: u32) -> Result<(), AllocError> {
    put(out, &[u64::from(accounts)])?;
    for account in 0..accounts {
        let coll = coll_of(account);
        put_row(out, account, &[coll, DEBT, coll, 0, 0, 0, 0])?;
    }
    Ok(())
}

fn put_deposits(out: &mut Vec<u8>, accounts: u32) -> Result<(), AllocError> {
    put(out, &[u64::from(accounts)])?;
    for account in 0..accounts {
        put_row(out, account, &[LUSD, 0, ONE, 0, 0, 0, 0])?;
    }
    Ok(())
}
