//! The left file of the current folder, followed.

use liq_follower::Follower;
use std::alloc::Global;
use std::fs::{File, Files};
use std::io;
use std::os::unix::fs::FileExt;
use std::rt::Clock;
use std::time::{Duration, Instant};

/// How many bytes are read at once, where a piece is no larger.
const READ: usize = 4096;

/// The largest piece: a full journal.
const MOST: usize = 1 << 28;

fn file<F: Files<File = File>>(files: &F, name: &str) -> io::Result<File> {
    File::options()
        .read(true)
        .write(true)
        .create(true)
        .open(files, name)
}

/// Feeds what was read, in pieces of this size.
fn feed(follower: &mut Follower, read: &[u8], size: usize) {
    for piece in read.chunks(size.max(1)) {
        let _ = follower.feed(piece);
    }
}

/// Feeds the file in pieces of this size, as many bytes being read at once as the buffer has.
fn feed_file(
    follower: &mut Follower,
    file: &File,
    buffer: &mut [u8],
    size: usize,
) -> io::Result<()> {
    let mut at = 0;
    for _ in 0..u64::MAX {
        let count = file.read_at(buffer, at)?;
        if count == 0 {
            break;
        }
        feed(follower, &buffer[..count.min(buffer.len())], size);
        at = at.saturating_add(count as u64);
    }
    Ok(())
}

/// How many records a follower has that is fed the file in pieces of this size, `READ` bytes or a
/// piece being read at once.
fn followed(alloc: Global, file: &File, size: usize) -> io::Result<u64> {
    let mut buffer = vec![in alloc; 0; size.clamp(READ, MOST)]?;
    let mut follower = Follower::new(alloc);
    feed_file(&mut follower, file, &mut buffer, size)?;
    Ok(follower.protocol().records())
}

/// The same of the left file.
fn followed_file<F: Files<File = File>>(files: &F, alloc: Global, size: usize) -> io::Result<u64> {
    let left = file(files, "left.liq")?;
    followed(alloc, &left, size)
}

/// The records of a follower and how long it took.
fn following<R>(rt: &R, alloc: Global, size: usize) -> io::Result<(u64, Duration)>
where
    R: Clock + Files<File = File>,
{
    let start = Instant::now(rt)?;
    let records = followed_file(rt, alloc, size)?;
    Ok((records, start.elapsed(rt)?))
}

/// It begins with nothing and finds a journal without records.
pub fn a_few<R: Print + Clock + Files<File = File>>(rt: &R, alloc: Global) -> io::Result<()> {
    let (followed, _) = following(rt, alloc, 1)?;
    println!(rt; "follow: {followed} followed")
}

/// How long a follower takes that is fed in pieces of this size.
pub fn measure<R>(rt: &R, alloc: Global, size: u64) -> io::Result<()>
where
    R: Print + Clock + Files<File = File>,
{
    let (records, time) = following(rt, alloc, size as usize)?;
    println!(rt; "{records} records in {} us", time.as_micros())
}
