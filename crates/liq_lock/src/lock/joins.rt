//! Two seats become one, which stands for the numbers and the shares of both.
ghost use Rattle.std.specs.Prelude.{◌≡◌, ◌+◌, ◌++◌};
ghost use Rattle.liq_lock.specs.History.{Behind};
ghost use Rattle.liq_lock.specs.Views.{longer};
ghost use Rattle.liq_lock.specs.Seats.{lock_id, seat_id, number_of, stands_of, seen_of, shares_of};

use super::{Lock, TICKET};
use crate::chronicle::Chronicle;
use crate::rule::{Merge, Settle};
use crate::seat::LockSeat;

impl<T: Chronicle> Lock<T> {
    /// Joins the right seat into the left one. Of what the two have seen, one begins the other: the
    /// seat has seen the longer, stands for all numbers of both, and holds the shares of both.
    pub fn join_seat(&self, left: LockSeat<T::Item>, right: LockSeat<T::Item>) -> LockSeat<T::Item>
        requires own_left { seat_id left ≡ lock_id self.now }
        requires own_right { seat_id right ≡ lock_id self.now }
        ensures own { seat_id result ≡ lock_id self.now }
        ensures number { number_of result ≡ number_of left }
        ensures stands { stands_of result ≡ stands_of left ++ stands_of right }
        ensures shares { shares_of result ≡ shares_of left + shares_of right }
        ensures seen { seen_of result ≡ longer (seen_of left) (seen_of right) }
        ensures behind_left { Behind T.maker (seen_of result) (stands_of left) (seen_of left) }
        ensures behind_right { Behind T.maker (seen_of result) (stands_of right) (seen_of right) }
    {
        let LockSeat {
            badge,
            shares,
            entries,
        } = left;
        let LockSeat {
            badge: other,
            shares: more_shares,
            entries: more_entries,
        } = right;
        let mut seat = badge.into_seat();
        let other = other.into_seat();
        self.table.shared.join_seat::<Merge>(&mut seat, other);
        self.table.shared.load::<Settle>(&mut seat, TICKET);
        LockSeat {
            badge: seat.into_badge(),
            shares: shares + more_shares,
            entries: entries.max(more_entries),
        }
    }
}
