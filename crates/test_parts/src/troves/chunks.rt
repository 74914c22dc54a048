//! Many entries that come, move and leave, beside a plain sorted list.

use crate::checks::{same, shows};
use liq_list_chunks::{Chunks, Entry};
use std::process::Abort;

// How many accounts come and go: six times what a chunk holds.
const MANY: u32 = 400;

// The rounds: all come, move a little, move far, two of three leave, those come back, all but a few
// leave, and the last of them.
const ROUNDS: u32 = 7;

// Who stands in the list in a round.
fn stands(account: u32, round: u32) -> bool {
    match round {
        3 => account % 3 == 0,
        5 => account < 40,
        6 => false,
        _ => true,
    }
}

// A key for a number. Some are equal.
fn drawn(number: i64) -> i64 {
    number.wrapping_mul(7_919) % 1_511 - 700
}

// A key for each account and round. In round 1 each is near that of round 0.
fn key_of(account: u32, round: u32) -> i64 {
    let number = i64::from(account);
    match round {
        0 => drawn(number),
        1 => drawn(number).wrapping_add(number % 3 - 1),
        _ => drawn(number + i64::from(round) * 977),
    }
}

// The entry of an account in a round, if it stands then.
fn entry_of(account: u32, round: u32) -> Option<Entry> {
    if stands(account, round) {
        Some((key_of(account, round), account))
    } else {
        None
    }
}

fn put<R: Abort>(rt: &R, chunks: &mut Chunks, entry: Entry) {
    shows(rt, "memory", chunks.insert(entry).is_ok());
}

// Brings an account's entry from where it was to where it will be. Tells whether it was shifted.
fn bring<R: Abort>(rt: &R, chunks: &mut Chunks, was: Option<Entry>, will: Option<Entry>) -> bool {
    match (was, will) {
        (None, None) => {}
        (None, Some(to)) => put(rt, chunks, to),
        (Some(from), None) => chunks.remove(from),
        (Some(from), Some(to)) => {
            if chunks.shift(from, to) {
                return true;
            }
            chunks.remove(from);
            put(rt, chunks, to);
        }
    }
    false
}

// The entries before and after a place in a sorted list, by going along it.
fn beside(list: &[Entry], place: Entry) -> (Option<Entry>, Option<Entry>) {
    let mut before = None;
    for other in list {
        if *other > place {
            return (before, Some(*other));
        }
        if *other < place {
            before = Some(*other);
        }
    }
    (before, None)
}

// The chunks have the ends of a sorted list, and beside each of its entries and beside another
// place what it has there.
fn agree<R: Abort>(rt: &R, chunks: &Chunks, list: &[Entry]) {
    same(rt, &chunks.first(), &list.first().copied(), "the first");
    same(rt, &chunks.last(), &list.last().copied(), "the last");
    for entry in list {
        let (key, account) = *entry;
        same(
            rt,
            &chunks.beside(*entry),
            &beside(list, *entry),
            "beside one of many",
        );
        let other = (key, account ^ 1);
        same(
            rt,
            &chunks.beside(other),
            &beside(list, other),
            "beside a place",
        );
    }
}

// Brings all to where they stand in a round, and tells how many were shifted.
fn follow<R: Abort>(rt: &R, chunks: &mut Chunks, round: u32, list: &mut Vec<Entry>) -> u32 {
    let mut shifted: u32 = 0;
    for account in 0..MANY {
        let was = match round {
            0 => None,
            _ => entry_of(account, round - 1),
        };
        let will = entry_of(account, round);
        if bring(rt, chunks, was, will) {
            shifted = shifted.wrapping_add(1);
        }
        if let Some(entry) = will {
            shows(rt, "memory", list.push(entry).is_ok());
        }
    }
    shifted
}

#[test]
fn many(rt: HostRuntime) {
    let mut chunks = Chunks::new(rt.alloc());
    for round in 0..ROUNDS {
        let mut list = Vec::new(rt.alloc());
        let shifted = follow(&rt, &mut chunks, round, &mut list);
        if round == 1 {
            shows(&rt, "most are shifted", shifted > MANY / 2);
            shows(&rt, "not all are shifted", shifted < MANY);
        }
        list.sort_unstable();
        agree(&rt, &chunks, &list);
    }
}

// What is there comes in but once, what isn't there neither leaves nor is shifted, and an entry is
// shifted behind the first alone.
#[test]
fn few(rt: HostRuntime) {
    let mut chunks = Chunks::new(rt.alloc());
    for entry in [(5, 1), (5, 2), (9, 1), (5, 1), (9, 1)] {
        put(&rt, &mut chunks, entry);
    }
    chunks.remove((5, 3));
    agree(&rt, &chunks, &[(5, 1), (5, 2), (9, 1)]);
    shows(&rt, "not there", !chunks.shift((5, 3), (7, 7)));
    shows(&rt, "the first", !chunks.shift((5, 1), (7, 7)));
    shows(&rt, "before the first", !chunks.shift((9, 1), (5, 0)));
    agree(&rt, &chunks, &[(5, 1), (5, 2), (9, 1)]);
    shows(&rt, "shifted", chunks.shift((5, 2), (i64::MAX, 0)));
    agree(&rt, &chunks, &[(5, 1), (9, 1), (i64::MAX, 0)]);
}

// Moves one of the entries to the end. Two chunks beside each other have more than 32 entries
// together then, and each has at most 64.
fn to_end<R: Abort>(rt: &R, chunks: &mut Chunks, list: &mut [Entry], at: usize, key: i64) {
    if let Some(entry) = list.get_mut(at) {
        chunks.remove(*entry);
        entry.0 = key;
        put(rt, chunks, *entry);
    }
    let count = chunks.chunks();
    let fits = list.len() / 64 <= count && count / 2 <= list.len() / 33;
    shows(rt, "few chunks", fits);
}

// Entries that move to the end, drawn one after another: those that stay grow few in their chunks.
#[test]
fn sparse(rt: HostRuntime) {
    let mut chunks = Chunks::new(rt.alloc());
    let mut list = Vec::new(rt.alloc());
    for account in 0..200 {
        let entry = (i64::from(account), account);
        put(&rt, &mut chunks, entry);
        shows(&rt, "memory", list.push(entry).is_ok());
    }
    let mut drawn: usize = 1;
    for key in 200..2_000 {
        drawn = drawn
            .wrapping_mul(6_364_136_223_846_793_005)
            .wrapping_add(1);
        to_end(
            &rt,
            &mut chunks,
            &mut list,
            drawn / 4_294_967_296 % 200,
            key,
        );
    }
    list.sort_unstable();
    agree(&rt, &chunks, &list);
}
