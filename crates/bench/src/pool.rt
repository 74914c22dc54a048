//! An offset of a Stability Pool with few and with many deposits.

use liq_stability::Stability;
use liq_types::NoMemory;
use liq_types::amounts::LIM;
use std::alloc::Global;
use std::io;
use std::rt::Clock;
use std::time::Instant;

const FEW_OFFSETS: u64 = 3;

const DEPOSITS: [u32; 3] = [100, 10_000, 100_000];

/// Of each, the best of so many is taken.
const ROUNDS: u64 = 5;

/// What each account provides, in micro-LUSD.
const AMOUNT: u64 = 1_000_000_000_000;

/// A pool of so many deposits.
fn pool_of(alloc: Global, deposits: u32) -> Result<Stability, NoMemory> {
    let mut pool = Stability::new(alloc);
    for account in 0..deposits {
        pool.reserve(Some(account), 0)?;
        if pool.words().total <= LIM - AMOUNT {
            let _ = pool.provide(account, AMOUNT);
        }
    }
    Ok(pool)
}

/// So many offsets of a thousand micro-LUSD for a thousand gwei, as far as the pool serves them.
fn take_over(pool: &mut Stability, offsets: u64) -> Result<(), NoMemory> {
    for _ in 0..offsets {
        pool.reserve(None, 1)?;
        let words = *pool.words();
        if words.total < 1000 || words.coll > LIM - 1000 || words.scale.max(words.epoch) > LIM {
            break;
        }
        pool.offset(1000, 1000);
    }
    Ok(())
}

/// What a pool of so many deposits has after so many offsets.
fn left(alloc: Global, deposits: u32, offsets: u64) -> Result<(u64, u64), NoMemory> {
    let mut pool = pool_of(alloc, deposits)?;
    take_over(&mut pool, offsets)?;
    Ok((pool.words().total, pool.words().coll))
}

/// What a pool has after a few offsets.
pub fn a_few<R: Print>(rt: &R, alloc: Global) -> io::Result<()> {
    for deposits in DEPOSITS {
        let (total, coll) = left(alloc, deposits, FEW_OFFSETS).unwrap_or((0, 0));
        println!(rt; "pool: {deposits} deposits: {total} {coll}")?;
    }
    Ok(())
}

/// Nanoseconds an offset for each number of deposits, and the greatest of them over the least.
pub fn measure<R: Print + Clock>(rt: &R, alloc: Global, offsets: u64) -> io::Result<()> {
    let mut least = u128::MAX;
    let mut greatest: u128 = 0;
    for deposits in DEPOSITS {
        let best = best_with(rt, alloc, deposits, offsets)?;
        least = least.min(best);
        greatest = greatest.max(best);
    }
    let percent = greatest.min(LIM.into()) * 100 / least.max(1);
    println!(rt; "greatest over least: {percent} percent")
}

/// The least nanoseconds that so many offsets took with so many deposits. Tells those an offset.
fn best_with<R: Print + Clock>(
    rt: &R,
    alloc: Global,
    deposits: u32,
    offsets: u64,
) -> io::Result<u128> {
    let best = match pool_of(alloc, deposits) {
        Ok(mut pool) => best_of(rt, &mut pool, offsets)?,
        Err(_) => return Err(io::ErrorKind::OutOfMemory.into()),
    };
    let each = best / u128::from(offsets.max(1));
    println!(rt; "{deposits} deposits: {each} ns an offset")?;
    Ok(best)
}

/// The least nanoseconds that so many offsets took.
fn best_of<R: Clock>(rt: &R, pool: &mut Stability, offsets: u64) -> io::Result<u128> {
    let mut best = u128::MAX;
    for _ in 0..ROUNDS {
        let start = Instant::now(rt)?;
        if take_over(pool, offsets).is_err() {
            return Err(io::ErrorKind::OutOfMemory.into());
        }
        best = best.min(start.elapsed(rt)?.as_nanos());
    }
    Ok(best)
}
