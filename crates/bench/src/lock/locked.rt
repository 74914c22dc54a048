//! Turns at the lock.
ghost use Rattle.std.specs.Prelude.{◌≡◌, ◌<◌, All};
ghost use denote.Param.Send.{IsSync};
ghost use Rattle.liq_lock.specs.Seats.{lock_id, seat_id};

use super::counts::Counted;
use liq_lock::{Lock, LockSeat};
use std::alloc::{AllocError, Global};
use std::sync::Wait;
use std::thread::{Threads, join};

/// So many turns of each thread at once, and how many turns were made.
pub fn run<R: Threads + Wait + Sync>(
    rt: &R,
    alloc: Global,
    threads: u32,
    each: u64,
) -> Result<u64, AllocError> {
    if threads == 0 {
        return Ok(0);
    }
    let Ok((lock, mut seats)) = Lock::new(alloc, Counted { turns: 0 }, threads) else {
        return Err(AllocError);
    };
    let Some(first) = seats.pop() else {
        return Ok(0);
    };
    let seat = at_once(rt, &lock, first, seats, each);
    let turns = match lock.close(seat) {
        Ok(counted) => counted.turns,
        Err(_) => 0,
    };
    Ok(turns)
}

fn turn<R: Wait>(rt: &R, lock: &Lock<Counted>, seat: LockSeat<()>) -> LockSeat<()>
    requires { seat_id seat ≡ lock_id lock.now }
    ensures { seat_id result ≡ lock_id lock.now }
{
    let (held, mut counted) = lock.take(rt, seat);
    counted.turns = counted.turns.wrapping_add(1);
    lock.give(held, counted)
}

fn turns<R: Wait>(rt: &R, lock: &Lock<Counted>, seat: LockSeat<()>, each: u64) -> LockSeat<()>
    requires { seat_id seat ≡ lock_id lock.now }
    ensures { seat_id result ≡ lock_id lock.now }
{
    let mut seat = seat;
    for _ in 0..each {
        seat = turn(rt, lock, seat);
    }
    seat
}

fn at_once<R: Threads + Wait + Sync>(
    rt: &R,
    lock: &Lock<Counted>,
    seat: LockSeat<()>,
    mut others: Vec<LockSeat<()>>,
    each: u64,
) -> LockSeat<()>
    requires own { seat_id seat ≡ lock_id lock.now }
    requires others { All (λ other. seat_id other ≡ lock_id lock.now) others.items }
    ensures { seat_id result ≡ lock_id lock.now }
{
    let Some(next) = others.pop() else {
        return turns(rt, lock, seat, each);
    };
    let (done, rest) = join(
        rt,
        move || -> LockSeat<()>
            requires { seat_id seat ≡ lock_id lock.now }
            ensures { seat_id result ≡ lock_id lock.entry.now }
        { turns(rt, lock, seat, each) },
        move || -> LockSeat<()>
            requires { IsSync R.row × (seat_id next ≡ lock_id lock.now)
                × All (λ other. seat_id other ≡ lock_id lock.now) others.items }
            ensures { seat_id result ≡ lock_id lock.entry.now }
        { at_once(rt, lock, next, others, each) },
    );
    lock.join_seat(rest, done)
}
