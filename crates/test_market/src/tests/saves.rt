//! Saves, and what they are loaded as.

use crate::tests::checks::shows;
use crate::tests::runs::{TWO_TROVES, after, is_accepted, save};
use liq_market::{LoadFault, Market};
use liq_types::{Call, NoMemory, Refusal, Reply};
use sha2::{Digest, Sha256};
use std::alloc::Global;

/// How bytes are loaded: as a market with this save, or why not.
fn loaded(alloc: Global, bytes: &[u8]) -> Result<Vec<u8>, LoadFault> {
    let market = Market::load(alloc, bytes)?;
    match market.save(alloc) {
        Ok(saved) => Ok(saved),
        Err(_) => Err(LoadFault::NoMemory),
    }
}

/// Whether bytes are loaded as a market with these very bytes as its save.
fn is_loaded(alloc: Global, bytes: &[u8]) -> bool {
    match loaded(alloc, bytes) {
        Ok(saved) => saved.as_slice() == bytes,
        Err(_) => false,
    }
}

fn is_damaged(alloc: Global, bytes: &[u8]) -> bool {
    matches!(Market::load(alloc, bytes), Err(LoadFault::Damaged))
}

/// Whether the bytes are damaged with any one of them changed.
fn is_damaged_at_each(alloc: Global, bytes: &mut [u8]) -> bool {
    for at in 0..bytes.len() {
        bytes[at] ^= 1;
        if !is_damaged(alloc, bytes) {
            return false;
        }
        bytes[at] ^= 1;
    }
    true
}

/// The same save with so many records, and the digest of that.
fn with_records(alloc: Global, saved: &[u8], records: [u8; 8]) -> Result<Vec<u8>, NoMemory> {
    let mut bytes = Vec::new(alloc);
    let (told, _) = saved.split_at(saved.len().saturating_sub(32));
    if told.len() < 16 {
        return Ok(bytes);
    }
    bytes.extend_from_slice(&told[..8])?;
    bytes.extend_from_slice(&records)?;
    bytes.extend_from_slice(&told[16..])?;
    let digest = Sha256::digest(bytes.as_slice());
    bytes.extend_from_slice(&digest)?;
    Ok(bytes)
}

/// A market's save after some calls.
fn saved_after(alloc: Global, calls: &[Call]) -> (u128, Vec<u8>) {
    match after(alloc, calls) {
        Some(market) => (market.saved_length(), save(alloc, &market)),
        None => (0, Vec::new(alloc)),
    }
}

fn save_and_load(alloc: Global) -> [bool; 4] {
    let (length, mut saved) = saved_after(alloc, &TWO_TROVES);
    let (_, opening) = saved_after(alloc, &[]);
    let short = saved.len().saturating_sub(1);
    [
        length == saved.len() as u128 && is_loaded(alloc, &saved),
        is_loaded(alloc, &opening) && opening.starts_with(b"LIQSNAP1\0\0\0\0\0\0\0\0LIQSTAT2"),
        is_damaged(alloc, &saved[..short]) && is_damaged(alloc, b""),
        is_damaged_at_each(alloc, &mut saved),
    ]
}

#[test]
fn saves_are_loaded(rt: HostRuntime) {
    let is_right = save_and_load(rt.alloc()) == [true; 4];
    shows(&rt, "saves", is_right);
}

/// The same save with another last number of its only client, whose row is the last of the
/// checkpoint: 61 bytes, of which the number follows the client's four.
fn with_last(alloc: Global, saved: &[u8], last: u64) -> Result<Vec<u8>, NoMemory> {
    let mut bytes = Vec::new(alloc);
    let (told, _) = saved.split_at(saved.len().saturating_sub(32));
    let (front, row) = told.split_at(told.len().saturating_sub(61));
    if row.len() < 61 {
        return Ok(bytes);
    }
    bytes.extend_from_slice(front)?;
    bytes.extend_from_slice(&row[..4])?;
    bytes.extend_from_slice(&last.to_be_bytes())?;
    bytes.extend_from_slice(&row[12..])?;
    let digest = Sha256::digest(bytes.as_slice());
    bytes.extend_from_slice(&digest)?;
    Ok(bytes)
}

/// Under which numbers three calls of a client are answered that has used all but one, and whether
/// the first is accepted and the others are out of turn.
fn with_one_left(alloc: Global) -> ([u64; 3], bool) {
    let (_, saved) = saved_after(alloc, &TWO_TROVES);
    let Ok(bytes) = with_last(alloc, &saved, u64::MAX - 1) else {
        return ([0; 3], false);
    };
    let Ok(mut market) = Market::load(alloc, &bytes) else {
        return ([0; 3], false);
    };
    let (last, accepted) = market.answer_next(1, &Call::Fund(1, 1));
    let (none, refused) = market.answer_next(1, &Call::Fund(1, 2));
    let (again, same) = market.answer_next(1, &Call::Fund(1, 1));
    let is_right = matches!(accepted, Ok(Reply::Said(_)))
        && is_used_up(&refused)
        && is_used_up(&same);
    ([last, none, again], is_right)
}

fn is_used_up(answer: &Result<Reply, NoMemory>) -> bool {
    match answer {
        Ok(reply) => *reply == Reply::No(Refusal::OutOfTurn { expected: u64::MAX }),
        Err(_) => false,
    }
}

#[test]
fn behind_the_greatest_number_there_is_none(rt: HostRuntime) {
    let is_right = with_one_left(rt.alloc()) == ([u64::MAX, 0, 0], true);
    shows(&rt, "numbers that are used up", is_right);
}

/// A save of 1,000,000 records: the market takes no command until a rotation, as one that has
/// carried out so many.
fn with_the_most(alloc: Global) -> [bool; 4] {
    let (_, saved) = saved_after(alloc, &TWO_TROVES);
    let most = with_records(alloc, &saved, [0, 0, 0, 0, 0, 15, 66, 64]);
    let Ok(bytes) = most else {
        return [false; 4];
    };
    let Ok(mut market) = Market::load(alloc, &bytes) else {
        return [false; 4];
    };
    let (_, full) = market.answer_next(1, &Call::Fund(1, 1));
    let records = 1_000_000;
    let is_full = matches!(full, Ok(reply) if reply == Reply::No(Refusal::JournalFull { records }));
    [
        is_loaded(alloc, &bytes),
        is_full,
        is_accepted(&mut market, &Call::Rotate),
        is_accepted(&mut market, &Call::Fund(1, 1)),
    ]
}

/// A save of one record more is that of no market.
fn with_more(alloc: Global) -> bool {
    let (_, saved) = saved_after(alloc, &TWO_TROVES);
    match with_records(alloc, &saved, [0, 0, 0, 0, 0, 15, 66, 65]) {
        Ok(bytes) => matches!(
            Market::load(alloc, &bytes),
            Err(LoadFault::Unsound { rule: 1 })
        ),
        Err(_) => false,
    }
}

#[test]
fn records_are_loaded(rt: HostRuntime) {
    let is_right = with_the_most(rt.alloc()) == [true; 4] && with_more(rt.alloc());
    shows(&rt, "records of a save", is_right);
}
