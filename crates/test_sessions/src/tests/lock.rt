//! The lock at a list of entries: a worked row, threads that take and give many times, and a seat
//! that is out.
ghost use Rattle.std.specs.Prelude.{◌≡◌, All};
ghost use Rattle.liq_lock.specs.Seats.{lock_id, seat_id};

use crate::tests::checks::{NOWHERE, same, shows};
use crate::tests::clerk::Clerk;
use crate::tests::clerk::turns::{at_once, open, turn};
use crate::tests::ledger::{Entry, Ledger};
use crate::tests::looks::look_at_once;
use liq_lock::{Lock, LockSeat, StillShared};
use std::alloc::Global;
use std::process::Abort;
use std::sync::Wait;
use std::thread::Threads;

const THREADS: u32 = 8;

const TIMES: u32 = 10_000;

/// The number of the first entry that is out of its maker's order, or of the first clerk that made
/// another number of entries.
fn first_odd(ledger: &Ledger) -> u64 {
    let mut counts = [0u32; 9];
    for (place, entry) in ledger.entries.iter().enumerate() {
        match counts.get_mut(entry.by as usize) {
            Some(count) if entry.count == count.wrapping_add(1) => *count = entry.count,
            _ => return place as u64,
        }
    }
    if counts == [0, TIMES, TIMES, TIMES, TIMES, TIMES, TIMES, TIMES, TIMES] {
        NOWHERE
    } else {
        ledger.entries.len() as u64
    }
}

/// A lock round an empty ledger with room for one entry, and a clerk for each of its two seats, the
/// first one first.
fn two_clerks(rt: &impl Abort, alloc: Global) -> (Lock<Ledger>, Clerk, Clerk)
    ensures first { seat_id result.1.seat ≡ lock_id result.0 }
    ensures second { seat_id result.2.seat ≡ lock_id result.0 }
{
    let Ok((lock, mut clerks)) = open(alloc, 2, 1) else {
        panic!(rt; "no memory");
    };
    let Some(first) = clerks.pop() else {
        panic!(rt; "no clerk");
    };
    let Some(second) = clerks.pop() else {
        panic!(rt; "no other clerk");
    };
    (lock, first, second)
}

/// What is seen of two seats, of which the first made an entry.
#[derive(Clone, Copy)]
struct Seen {
    first: u64,
    second: u64,
    /// How many seats were missing where the first alone was to close the lock.
    shares: u32,
    joined: u64,
    /// How many entries there are, and who made the first.
    entries: u64,
    by: u32,
    count: u32,
}

/// How many entries both seats have seen once they are joined, and the ledger: the lock closes
/// then.
fn close_joined(
    rt: &impl Abort,
    lock: Lock<Ledger>,
    left: LockSeat<Entry>,
    right: LockSeat<Entry>,
) -> (u64, Ledger)
    requires left { seat_id left ≡ lock_id lock }
    requires right { seat_id right ≡ lock_id lock }
{
    let joined = lock.join_seat(left, right);
    let seen = joined.seen();
    match lock.close(joined) {
        Ok(ledger) => (seen, ledger),
        Err(_) => panic!(rt; "still shared"),
    }
}

/// Both seats of a lock: the first makes an entry, cannot close the lock while the second is out,
/// and can once they are joined.
fn see_two<R: Abort + Wait>(rt: &R, lock: Lock<Ledger>, first: Clerk, second: Clerk) -> Seen
    requires first { seat_id first.seat ≡ lock_id lock }
    requires second { seat_id second.seat ≡ lock_id lock }
{
    let Clerk { seat, .. } = turn(rt, &lock, first);
    let Clerk { seat: other, .. } = second;
    let seen = [seat.seen(), other.seen()];
    let Err(StillShared { lock, seat, shares }) = lock.close(seat) else {
        panic!(rt; "closed with a seat out");
    };
    let (joined, ledger) = close_joined(rt, lock, other, seat);
    let Entry { by, count } = first_of(&ledger);
    Seen {
        first: seen[0],
        second: seen[1],
        shares,
        joined,
        entries: ledger.entries.len() as u64,
        by,
        count,
    }
}

/// The first entry, or one of nobody.
fn first_of(ledger: &Ledger) -> Entry {
    match ledger.entries.first() {
        Some(entry) => *entry,
        None => Entry { by: 0, count: 0 },
    }
}

#[test]
fn one_entry_and_a_seat_out(rt: HostRuntime) {
    let (lock, first, second) = two_clerks(&rt, rt.alloc());
    let seen = see_two(&rt, lock, first, second);
    same(&rt, seen.first, 1, "seen by the first");
    same(&rt, seen.second, 0, "seen by the second");
    same(&rt, u64::from(seen.shares), 1, "a seat that is out");
    same(&rt, seen.joined, 1, "seen by both");
    same(&rt, seen.entries, 1, "one entry");
    shows(&rt, "the first by clerk 1", seen.by == 1 && seen.count == 1);
}

/// Two threads look at a value to which one of them has added: how many entries both have seen
/// then, where the lock closes.
fn look_twice<R: Threads + Wait + Sync>(
    rt: &R,
    lock: Lock<Ledger>,
    first: Clerk,
    second: Clerk,
) -> u64
    requires first { seat_id first.seat ≡ lock_id lock }
    requires second { seat_id second.seat ≡ lock_id lock }
{
    let Clerk { seat, .. } = turn(rt, &lock, first);
    let Clerk { seat: other, .. } = second;
    let joined = look_at_once(rt, &lock, other, seat);
    let seen = joined.seen();
    match lock.close(joined) {
        Ok(_) => seen,
        Err(_) => NOWHERE,
    }
}

#[test]
fn both_look(rt: HostRuntime) {
    let (lock, first, second) = two_clerks(&rt, rt.alloc());
    let seen = look_twice(&rt, lock, first, second);
    same(&rt, seen, 1, "seen by both threads");
}

/// What is seen by all clerks after so many turns at once, and the first that is odd then.
fn see_all<R: Threads + Wait + Sync>(
    rt: &R,
    lock: Lock<Ledger>,
    first: Clerk,
    others: Vec<Clerk>,
) -> (u64, u64)
    requires first { seat_id first.seat ≡ lock_id lock }
    requires others { All (λ clerk. seat_id clerk.seat ≡ lock_id lock) others.items }
{
    let seat = at_once(rt, &lock, first, others, TIMES);
    let seen = seat.seen();
    match lock.close(seat) {
        Ok(ledger) => (seen, first_odd(&ledger)),
        Err(_) => (seen, 0),
    }
}

/// Eight threads that take and give ten thousand times each.
#[test]
fn eight_threads(rt: HostRuntime) {
    let room = (THREADS * TIMES) as usize;
    let Ok((lock, mut clerks)) = open(rt.alloc(), THREADS, room) else {
        panic!(rt; "no memory");
    };
    let Some(first) = clerks.pop() else {
        panic!(rt; "no clerk");
    };
    let (seen, odd) = see_all(&rt, lock, first, clerks);
    same(&rt, seen, 80_000, "seen by eight threads");
    same(
        &rt,
        odd,
        NOWHERE,
        "each clerk's entries, in order and none missing",
    );
}
