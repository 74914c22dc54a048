//! Measures what a word names, so many times as the count behind it says, on this machine:
//! `num CALLS` the numbers' costly functions, `follow SIZE` a follower that is fed the left file of
//! the current folder in pieces of this size, `pool OFFSETS` an offset of the Stability Pool with
//! few and with many deposits, `image ROUNDS` a checkpoint of many accounts and the protocol that
//! begins with it, `lock TURNS` the lock beside a plain mutex. With no word it does a little of
//! each and prints what comes of it, which is the same each time. What the built program shows too
//! is measured by the scripts in bench/.
#![tactic(auto)]

mod follow;
mod image;
mod lock;
mod num;
mod pool;

use std::alloc::Global;
use std::fs::{File, Files};
use std::rt::Clock;
use std::sync::Wait;
use std::thread::Threads;
use std::time::Duration;
use std::{env, io};

/// How many a second that is.
pub fn rate(count: u64, time: Duration) -> u128 {
    u128::from(count) * 1_000_000_000 / time.as_nanos().max(1)
}

/// A little of each.
fn a_few<R>(rt: &R, alloc: Global) -> io::Result<()>
where
    R: Print + Clock + Files<File = File> + Threads + Wait + Sync,
{
    num::a_few(rt)?;
    follow::a_few(rt, alloc)?;
    pool::a_few(rt, alloc)?;
    image::a_few(rt, alloc)?;
    lock::a_few(rt, alloc)
}

/// What the word names, so many times.
fn measure<R>(rt: &R, alloc: Global, word: &str, count: u64) -> io::Result<()>
where
    R: Print + Clock + Files<File = File> + Threads + Wait + Sync,
{
    match word {
        "num" => num::measure(rt, count),
        "follow" => follow::measure(rt, alloc, count),
        "pool" => pool::measure(rt, alloc, count),
        "image" => image::measure(rt, alloc, count),
        "lock" => lock::measure(rt, alloc, count),
        _ => println!(rt; "num, follow, pool, image or lock, and a count"),
    }
}

fn main(rt: HostRuntime) -> io::Result<()> {
    let mut words = env::args(&rt)?.skip(1);
    let Some(word) = words.next() else {
        return a_few(&rt, rt.alloc());
    };
    let count = match words.next() {
        Some(count) => count.parse::<u64>().unwrap_or(0),
        None => 0,
    };
    measure(&rt, rt.alloc(), word.as_str(), count)
}
