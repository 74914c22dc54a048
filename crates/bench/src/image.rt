//! A checkpoint of many accounts: read, begun with, and told and written again.

ghost use Rattle.liq_types.specs.Soundness.{HasTables};

mod many;

use liq_checkpoint::{decode, encode};
use liq_core::Protocol;
use liq_core::laws::protocols_are_sound;
use liq_types::Image;
use liq_types::amounts::LIM;
use many::checkpoint;
use std::alloc::Global;
use std::io;
use std::rt::Clock;
use std::time::Instant;

const FEW_ACCOUNTS: u32 = 1000;

const ACCOUNTS: [u32; 2] = [10_000, 100_000];

/// The checkpoint of a few accounts comes again.
pub fn a_few<R: Print + Clock>(rt: &R, alloc: Global) -> io::Result<()> {
    let bytes = checkpoint(alloc, FEW_ACCOUNTS)?;
    let _ = times(rt, alloc, &bytes)?;
    let length = bytes.len();
    println!(rt; "image: {FEW_ACCOUNTS} accounts: {length} bytes, the same again")
}

/// Microseconds for each number of accounts, the best of so many rounds, and the time of beginning
/// with many over that with fewer.
pub fn measure<R: Print + Clock>(rt: &R, alloc: Global, rounds: u64) -> io::Result<()> {
    let [fewer, many] = ACCOUNTS;
    let least = best_with(rt, alloc, fewer, rounds)?;
    let greatest = best_with(rt, alloc, many, rounds)?;
    let percent = greatest.min(LIM.into()) * 100 / least.max(1);
    println!(rt; "many over fewer: {percent} percent to begin with")
}

/// The least microseconds that it took to begin with the image of so many accounts. Tells those of
/// each part.
fn best_with<R>(rt: &R, alloc: Global, accounts: u32, rounds: u64) -> io::Result<u128>
where
    R: Print + Clock,
{
    let [read, begin, tell, write] = best_of(rt, alloc, &checkpoint(alloc, accounts)?, rounds)?;
    println!(rt;
        "{accounts} accounts: read in {read} us, begun with in {begin}, told in {tell}, \
         written in {write}"
    )?;
    Ok(begin)
}

fn best_of<R: Clock>(rt: &R, alloc: Global, bytes: &[u8], rounds: u64) -> io::Result<[u128; 4]> {
    let mut best = [u128::MAX; 4];
    for _ in 0..rounds.max(1) {
        best = least_of(best, times(rt, alloc, bytes)?);
    }
    Ok(best)
}

fn least_of(first: [u128; 4], second: [u128; 4]) -> [u128; 4] {
    let [read, begin, tell, write] = second;
    [
        first[0].min(read),
        first[1].min(begin),
        first[2].min(tell),
        first[3].min(write),
    ]
}

/// Microseconds to read a checkpoint, to begin a protocol with its image, to tell the protocol's
/// image, and to write it.
fn times<R: Clock>(rt: &R, alloc: Global, bytes: &[u8]) -> io::Result<[u128; 4]> {
    let start = Instant::now(rt)?;
    match decode(alloc, bytes) {
        Ok(image) => {
            let read = start.elapsed(rt)?.as_micros();
            let [begin, tell, write] = times_from(rt, alloc, image, bytes)?;
            Ok([read, begin, tell, write])
        }
        Err(_) => Err(io::ErrorKind::InvalidData.into()),
    }
}

fn times_from<R: Clock>(rt: &R, alloc: Global, image: Image, bytes: &[u8]) -> io::Result<[u128; 3]>
    requires { HasTables image }
{
    let start = Instant::now(rt)?;
    match Protocol::from_image(alloc, image) {
        Ok(protocol) => {
            let begin = start.elapsed(rt)?.as_micros();
            let [tell, write] = times_of(rt, alloc, &protocol, bytes)?;
            Ok([begin, tell, write])
        }
        Err(_) => Err(io::ErrorKind::InvalidData.into()),
    }
}

fn times_of<R>(rt: &R, alloc: Global, protocol: &Protocol, bytes: &[u8]) -> io::Result<[u128; 2]>
where
    R: Clock,
{
    // odd: law called
    protocols_are_sound(protocol);
    let start = Instant::now(rt)?;
    match protocol.image() {
        Ok(image) => times_since(rt, &start, alloc, &image, bytes),
        Err(_) => Err(io::ErrorKind::OutOfMemory.into()),
    }
}

/// Microseconds since the image was asked for, and to write it.
fn times_since<R: Clock>(
    rt: &R,
    start: &Instant,
    alloc: Global,
    image: &Image,
    bytes: &[u8],
) -> io::Result<[u128; 2]>
    requires { HasTables image.now }
{
    let tell = start.elapsed(rt)?.as_micros();
    Ok([tell, time_to_write(rt, alloc, image, bytes)?])
}

/// Microseconds to write the image, whose checkpoint these bytes are.
fn time_to_write<R: Clock>(rt: &R, alloc: Global, image: &Image, bytes: &[u8]) -> io::Result<u128>
    requires { HasTables image.now }
{
    if image.limit != LIM {
        return Err(io::ErrorKind::InvalidData.into());
    }
    let start = Instant::now(rt)?;
    match encode(alloc, image) {
        Ok(written) => {
            let time = start.elapsed(rt)?.as_micros();
            if written.as_slice() == bytes {
                Ok(time)
            } else {
                Err(io::ErrorKind::InvalidData.into())
            }
        }
        Err(_) => Err(io::ErrorKind::OutOfMemory.into()),
    }
}
