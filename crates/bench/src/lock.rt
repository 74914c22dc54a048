//! The lock beside a plain mutex of std.

mod counts;
mod locked;
mod plain;

use crate::rate;
use std::alloc::Global;
use std::io;
use std::rt::Clock;
use std::sync::Wait;
use std::thread::Threads;
use std::time::Instant;

const FEW_TURNS: u64 = 800;

const THREADS: [u32; 4] = [1, 2, 4, 8];

/// How many of a few turns are made by both.
pub fn a_few<R: Print + Threads + Wait + Sync>(rt: &R, alloc: Global) -> io::Result<()> {
    for threads in THREADS {
        let each = FEW_TURNS / u64::from(threads);
        let locked = locked::run(rt, alloc, threads, each)?;
        let plain = plain::run(rt, threads, each);
        println!(rt; "lock: {threads} threads: {locked} {plain} turns")?;
    }
    Ok(())
}

/// The turns a second of 1, 2, 4 and 8 threads, which make so many turns together.
pub fn measure<R>(rt: &R, alloc: Global, turns: u64) -> io::Result<()>
where
    R: Print + Clock + Threads + Wait + Sync,
{
    for threads in THREADS {
        let each = turns / u64::from(threads);
        let locked = locked_rate(rt, alloc, threads, each)?;
        let plain = plain_rate(rt, threads, each)?;
        println!(rt; "{threads} threads: {locked} turns a second, {plain} with a plain mutex")?;
    }
    Ok(())
}

fn locked_rate<R>(rt: &R, alloc: Global, threads: u32, each: u64) -> io::Result<u128>
where
    R: Clock + Threads + Wait + Sync,
{
    let start = Instant::now(rt)?;
    let made = locked::run(rt, alloc, threads, each)?;
    Ok(rate(made, start.elapsed(rt)?))
}

fn plain_rate<R>(rt: &R, threads: u32, each: u64) -> io::Result<u128>
where
    R: Clock + Threads + Wait + Sync,
{
    let start = Instant::now(rt)?;
    let made = plain::run(rt, threads, each);
    Ok(rate(made, start.elapsed(rt)?))
}
