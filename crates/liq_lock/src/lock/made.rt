//! A lock is made, with its seats.
ghost use Rattle.std.specs.Prelude.{◌≡◌, ◌<◌, ◌≤◌, [], length, vec_len, vec_capacity, IfOk, IfErr};
ghost use Rattle.liq_lock.specs.Views.{dealer, newcomer};
ghost use Rattle.liq_lock.specs.Seats.{lock_id, lock_seats, IsFresh, AreFresh};

use super::Lock;
use crate::chronicle::Chronicle;
use crate::rule::Deal;
use crate::seat::LockSeat;
use crate::view::View;
use atomic_table::{Refused, Seat, Table};
use std::alloc::Global;

impl<T: Chronicle> Lock<T> {
    /// A lock round the value, with so many seats, numbered from 1 in their order. `Err` gives the
    /// value back where there was no memory.
    pub fn new(alloc: Global, value: T, seats: u32) -> Result<(Lock<T>, Vec<LockSeat<T::Item>>), T>
        requires some_seat { 0 < seats }
        requires empty { T.history value ≡ [] }
        ensures lock { IfOk result (λ made. lock_seats made.0 ≡ seats) }
        ensures count { IfOk result (λ made. length made.1.items ≡ seats) }
        ensures fresh { IfOk result (λ made. AreFresh (lock_id made.0) made.1.items) }
        ensures err { IfErr result (λ back. back ≡ value) }
    {
        let Ok(room) = Vec::with_capacity(alloc, seats as usize) else {
            return Err(value);
        };
        let Ok(mut slots) = Vec::with_capacity(alloc, 1) else {
            return Err(value);
        };
        slots.push_reserved(Some(value));
        match Table::new(alloc, &[0, 0, 0], slots, &seats) {
            Ok((table, opener)) => {
                let lock = Lock { table, seats };
                let seats = lock.deal(opener, room);
                Ok((lock, seats))
            }
            Err(Refused { mut slots }) => {
                let back = match slots.pop() {
                    Some(Some(back)) => back,
                    _ => unreachable!(),
                };
                slots.destroy_empty();
                Err(back)
            }
        }
    }

    // The first seat gives a share to each of the others, and keeps one.
    fn deal(
        &self,
        opener: Seat<Option<T>, View<T::Item>>,
        mut seats: Vec<LockSeat<T::Item>>,
    ) -> Vec<LockSeat<T::Item>>
        requires own { opener.table_id ≡ lock_id self.now }
        requires first { opener.me ≡ (dealer 2 (lock_seats self.now), []) }
        requires fresh { seats.items ≡ [] }
        requires room { lock_seats self.now ≤ vec_capacity seats }
        ensures count { length result.items ≡ lock_seats self.now }
        ensures fresh { AreFresh (lock_id self.now) result.items }
    {
        let mut first = opener;
        for _ in 1..self.seats {
            let next = self.table.shared.split_seat::<Deal>(&mut first);
            seats.push_reserved(seated(next));
        }
        let Ok(()) = seats.insert(0, seated(first)) else {
            unreachable!()
        };
        seats
    }
}

// A seat that was made for one share.
fn seated<T: Chronicle>(seat: Seat<Option<T>, View<T::Item>>) -> LockSeat<T::Item>
    requires { seat.me ≡ (newcomer seat.me.0.number seat.me.0.next, []) }
    ensures { IsFresh seat.table_id seat.me.0.number result }
{
    LockSeat {
        badge: seat.into_badge(),
        shares: 1,
        entries: 0,
    }
}
