//! The end of a lock: the seat that has all shares takes the value out for good.
ghost use Rattle.std.specs.Prelude.{◌≡◌, ◌<◌, MatchResult, IfOk};
ghost use Rattle.liq_lock.specs.History.{Within};
ghost use Rattle.liq_lock.specs.Seats.{lock_id, lock_seats, seat_id, seen_of, shares_of};

use super::{Lock, StillShared};
use crate::chronicle::Chronicle;
use crate::seat::LockSeat;

impl<T: Chronicle> Lock<T> {
    /// Ends the lock and gives the value out, whose history is all that the seat has seen; each
    /// item was made by one of the seats. `StillShared` comes exactly where the seat has fewer
    /// shares than there were seats made.
    pub fn close(self, seat: LockSeat<T::Item>) -> Result<T, StillShared<T>>
        requires own { seat_id seat ≡ lock_id self }
        ensures shares { MatchResult result (λ x. shares_of seat ≡ lock_seats self)
            (λ e. shares_of seat < lock_seats self) }
        ensures value { MatchResult result (λ x. T.history x ≡ seen_of seat)
            (λ e. (e.lock ≡ self) × (e.seat ≡ seat) × (e.shares ≡ shares_of seat)) }
        ensures makers { IfOk result (λ x. Within T.maker (lock_seats self) (T.history x)) }
    {
        let shares = seat.shares;
        if shares < self.seats {
            return Err(StillShared {
                lock: self,
                seat,
                shares,
            });
        }
        let LockSeat {
            badge,
            shares: _,
            entries: _,
        } = seat;
        let Lock { table, seats: _ } = self;
        let mut closed = table.close_with(badge.into_seat());
        let value = match closed.take(0) {
            Some(value) => value,
            None => unreachable!(),
        };
        closed.free();
        Ok(value)
    }
}
