//! What clerks do at the lock.
ghost use Rattle.std.specs.Prelude.{◌≡◌, ◌<◌, ◌≤◌, ◌+◌, ◌^◌, length, vec_capacity, All, IfOk};
ghost use denote.Param.Send.{IsSync};
ghost use Rattle.liq_lock.specs.Seats.{lock_id, lock_seats, seat_id, AreFresh};

use super::Clerk;
use crate::tests::ledger::{Entry, Ledger};
use liq_lock::{Lock, LockSeat};
use std::alloc::{AllocError, Global};
use std::sync::Wait;
use std::thread::{Threads, join};

/// A lock round an empty ledger that has room for so many entries, and a clerk for each seat, the
/// first one last.
pub fn open(
    alloc: Global,
    seats: u32,
    room: usize,
) -> Result<(Lock<Ledger>, Vec<Clerk>), AllocError>
    requires { 0 < seats }
    ensures { IfOk result (λ made. All (λ clerk. seat_id clerk.seat
        ≡ lock_id made.0) made.1.items) }
{
    let clerks = Vec::with_capacity(alloc, seats as usize)?;
    let entries = Vec::with_capacity(alloc, room)?;
    match Lock::new(alloc, Ledger { entries }, seats) {
        Ok((lock, seats)) => {
            let clerks = hired(&lock, seats, clerks);
            Ok((lock, clerks))
        }
        Err(_) => Err(AllocError),
    }
}

// A clerk for each seat.
fn hired(lock: &Lock<Ledger>, mut seats: Vec<LockSeat<Entry>>, mut clerks: Vec<Clerk>) -> Vec<Clerk>
    requires fresh { AreFresh (lock_id lock.now) seats.items }
    requires few { length seats.items < 2 ^ 32 }
    requires room { length clerks.items + length seats.items ≤ vec_capacity clerks }
    requires own { All (λ clerk. seat_id clerk.seat ≡ lock_id lock.now) clerks.items }
    ensures { All (λ clerk. seat_id clerk.seat ≡ lock_id lock.now) result.items }
{
    while let Some(seat) = seats.pop() {
        let number = seats.len() as u32 + 1;
        clerks.push_reserved(Clerk {
            seat,
            number,
            made: 0,
        });
    }
    clerks
}

/// One turn at the lock, in which the clerk adds an entry.
pub fn turn<R: Wait>(rt: &R, lock: &Lock<Ledger>, clerk: Clerk) -> Clerk
    requires { seat_id clerk.seat ≡ lock_id lock.now }
    ensures { seat_id result.seat ≡ lock_id lock.now }
{
    let Clerk { seat, number, made } = clerk;
    let (held, mut ledger) = lock.take(rt, seat);
    let count = made.saturating_add(1);
    let _ = ledger.entries.push(Entry { by: number, count });
    let seat = lock.give(held, ledger);
    Clerk {
        seat,
        number,
        made: count,
    }
}

/// So many turns.
pub fn turns<R: Wait>(rt: &R, lock: &Lock<Ledger>, clerk: Clerk, times: u32) -> Clerk
    requires { seat_id clerk.seat ≡ lock_id lock.now }
    ensures { seat_id result.seat ≡ lock_id lock.now }
{
    let mut clerk = clerk;
    for _ in 0..times {
        clerk = turn(rt, lock, clerk);
    }
    clerk
}

/// All clerks at once, each in a thread with so many turns. Then their seats are joined.
pub fn at_once<R: Threads + Wait + Sync>(
    rt: &R,
    lock: &Lock<Ledger>,
    clerk: Clerk,
    mut others: Vec<Clerk>,
    times: u32,
) -> LockSeat<Entry>
    requires own { seat_id clerk.seat ≡ lock_id lock.now }
    requires others { All (λ clerk. seat_id clerk.seat ≡ lock_id lock.now) others.items }
    ensures { seat_id result ≡ lock_id lock.now }
{
    let Some(next) = others.pop() else {
        let Clerk { seat, .. } = turns(rt, lock, clerk, times);
        return seat;
    };
    let (done, rest) = join(
        rt,
        move || -> LockSeat<Entry>
            requires { seat_id clerk.seat ≡ lock_id lock.now }
            ensures { seat_id result ≡ lock_id lock.entry.now }
        {
            let Clerk { seat, .. } = turns(rt, lock, clerk, times);
            seat
        },
        move || -> LockSeat<Entry>
            requires { IsSync R.row × (seat_id next.seat ≡ lock_id lock.now)
                × All (λ clerk. seat_id clerk.seat ≡ lock_id lock.now) others.items }
            ensures { seat_id result ≡ lock_id lock.entry.now }
        { at_once(rt, lock, next, others, times) },
    );
    lock.join_seat(rest, done)
}
