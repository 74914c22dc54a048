//! Two seats of any lock that look at its value at once.
ghost use Rattle.std.specs.Prelude.{◌≡◌, ◌++◌};
ghost use Rattle.liq_lock.specs.History.{Behind};
ghost use Rattle.liq_lock.specs.Seats.{lock_id, seat_id, stands_of, seen_of};

use liq_lock::{Chronicle, Lock, LockSeat};
use std::sync::Wait;
use std::thread::{Threads, join};

// A turn that adds nothing.
fn look<T: Chronicle, R: Wait>(rt: &R, lock: &Lock<T>, seat: LockSeat<T::Item>) -> LockSeat<T::Item>
    requires { seat_id seat ≡ lock_id lock.now }
    ensures own { seat_id result ≡ lock_id lock.now }
    ensures stands { stands_of result ≡ stands_of seat }
    ensures behind { Behind T.maker (seen_of result) (stands_of seat) (seen_of seat) }
{
    let (held, value) = lock.take(rt, seat);
    lock.give(held, value)
}

/// Each seat looks in a thread of its own, and then they are joined.
pub fn look_at_once<T: Chronicle + Send, R: Threads + Wait + Sync>(
    rt: &R,
    lock: &Lock<T>,
    left: LockSeat<T::Item>,
    right: LockSeat<T::Item>,
) -> LockSeat<T::Item>
    requires own_left { seat_id left ≡ lock_id lock.now }
    requires own_right { seat_id right ≡ lock_id lock.now }
    ensures own { seat_id result ≡ lock_id lock.now }
    ensures stands { stands_of result ≡ stands_of left ++ stands_of right }
{
    let (left, right) = join(
        rt,
        move || -> LockSeat<T::Item>
            requires { seat_id left ≡ lock_id lock.now }
            ensures { (seat_id result ≡ lock_id lock.entry.now)
                × (stands_of result ≡ stands_of left) }
        { look(rt, lock, left) },
        move || -> LockSeat<T::Item>
            requires { seat_id right ≡ lock_id lock.now }
            ensures { (seat_id result ≡ lock_id lock.entry.now)
                × (stands_of result ≡ stands_of right) }
        { look(rt, lock, right) },
    );
    lock.join_seat(left, right)
}
