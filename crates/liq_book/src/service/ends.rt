//! The end of a service: its seats are joined into one, the lock is closed, and the book is taken
//! apart.
ghost use Rattle.std.specs.Prelude.{◌≡◌, ◌≤◌, ◌<◌, ◌+◌, ◌-◌, [], ◌∷◌, All, IfOk, MatchResult, length};
ghost use Rattle.liq_lock.specs.History.{Behind, Within};
ghost use Rattle.liq_lock.specs.Seats.{lock_id, seat_id, seen_of, shares_of, stands_of};
ghost use Rattle.liq_book.specs.Booked.{IsBook};
ghost use Rattle.liq_book.specs.Closing.{booked_by, items_left};
ghost use Rattle.liq_book.specs.Items.{session_of};
ghost use Rattle.liq_book.specs.Seats.{IsSeatOf, items_seen, session_at, sessions_of};

use super::{Closed, Service, StillOut};
use crate::boxed::BoxedBook;
use crate::items::Item;
use crate::origin::Origin;
use crate::seat::BookSeat;
use liq_lock::{Lock, LockSeat};
use liq_outside::Disk;
use std::sync::Wait;

impl<D: Disk, O: Origin> Service<D, O> {
    /// Ends the service with its seats, and its publisher. What it leaves begins with what each
    /// seat has seen, and has of each session just the items that its seat made; nothing is there
    /// of a session that has no seat. `StillOut` comes exactly where seats are missing.
    pub fn close<W: Wait>(
        self,
        rt: &W,
        mut seats: Vec<BookSeat<O>>,
    ) -> Result<Closed<D, O>, StillOut<D, O>>
        requires own { All (IsSeatOf self) seats.items }
        ensures count { MatchResult result (λ closed. sessions_of self ≤ length seats.items)
            (λ out. length seats.items < sessions_of self) }
        ensures out { MatchResult result (λ closed. Unit {0})
            (λ out. (out.service ≡ self) × (out.seats.items ≡ seats.items)
            × (out.missing ≡ sessions_of self - length seats.items)) }
        ensures book { IfOk result
            (λ closed. IsBook D.at O.state O.left O.right (booked_by closed)) }
        ensures seen { IfOk result (λ closed. All (λ seat. Behind session_of (items_left closed)
            (session_at seat ∷ []) (items_seen seat)) seats.items) }
        ensures sessions { IfOk result
            (λ closed. Within session_of (sessions_of self) (items_left closed)) }
    {
        let given = seats.len();
        if given < self.sessions as usize {
            let missing = u32::from(self.sessions) - given as u32;
            return Err(StillOut {
                service: self,
                seats,
                missing,
            });
        }
        let Some(first) = seats.pop() else {
            unreachable!();
        };
        let BookSeat { seat, .. } = first;
        let Service { lock, sessions: _ } = self;
        let seat = join_seats(&lock, seat, seats);
        match lock.close(seat) {
            Ok(book) => Ok(book.close(rt)),
            Err(_) => unreachable!(),
        }
    }
}

/// All seats joined into one.
fn join_seats<D: Disk, O: Origin>(
    lock: &Lock<BoxedBook<D, O>>,
    joined: LockSeat<Item>,
    mut seats: Vec<BookSeat<O>>,
) -> LockSeat<Item>
    requires own { seat_id joined ≡ lock_id lock.now }
    requires own_seats { All (λ seat. seat_id seat.seat ≡ lock_id lock.now) seats.items }
    ensures own { seat_id result ≡ lock_id lock.now }
    ensures shares { shares_of result ≡ shares_of joined + length seats.items }
    ensures behind { Behind session_of (seen_of result) (stands_of joined) (seen_of joined) }
    ensures behind_seats { All (λ seat. Behind session_of (seen_of result) (session_at seat ∷ [])
        (items_seen seat)) seats.items }
{
    let Some(next) = seats.pop() else {
        return joined;
    };
    let BookSeat { seat, .. } = next;
    join_seats(lock, lock.join_seat(joined, seat), seats)
}
