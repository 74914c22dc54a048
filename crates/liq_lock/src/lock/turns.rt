//! Turns at the lock: a ticket is drawn, its turn comes, the value goes out and comes back, and the
//! turn ends.
ghost use Rattle.std.specs.Prelude.{◌≡◌, ◌+◌, ◌≤◌, ◌%◌, ◌^◌, true, [], ◌∷◌, length, Some};
ghost use Rattle.liq_lock.specs.History.{Behind, GoesOn};
ghost use Rattle.liq_lock.specs.Views.{view_in, is_at_rest, drew, saw, outside};
ghost use Rattle.liq_lock.specs.Steps.{Enters, IsWaiting, IsLeaving};
ghost use Rattle.liq_lock.specs.Seats.{lock_id, seat_id, number_of, stands_of, seen_of, shares_of, held_id, number_in, stands_in, seen_in, shares_in};

use super::{Held, ITEMS, Lock, SERVING, TICKET};
use crate::chronicle::Chronicle;
use crate::rule::{Count, Draw, Leave, Look};
use crate::seat::LockSeat;
use crate::view::View;
use atomic_table::{Badge, Seat};
use std::sync::Wait;
use std::thread::yield_now;

// Looks of a thread before it draws a ticket, and of one that waits before it sleeps.
const LOOKS: u32 = 64;

// The bits of a word that a sleep compares: the low 32.
const LOW: u64 = 0xffff_ffff;

impl<T: Chronicle> Lock<T> {
    /// Takes the value when the turn of this seat has come. The history of the value begins with
    /// all that the seat has seen, and what follows was made by other seats than those for which
    /// this one stands. It looks some times whether a turn is taken before it draws a ticket, and
    /// then waits for the seats that drew theirs before.
    pub fn take<R: Wait>(&self, rt: &R, seat: LockSeat<T::Item>) -> (Held<T>, T)
        requires own { seat_id seat ≡ lock_id self.now }
        ensures own { held_id result.0 ≡ lock_id self.now }
        ensures number { number_in result.0 ≡ number_of seat }
        ensures stands { stands_in result.0 ≡ stands_of seat }
        ensures shares { shares_in result.0 ≡ shares_of seat }
        ensures value { T.history result.1 ≡ seen_in result.0 }
        ensures behind { Behind T.maker (T.history result.1) (stands_of seat) (seen_of seat) }
    {
        let LockSeat {
            badge,
            shares,
            entries: _,
        } = seat;
        self.let_pass();
        let (mut seat, number) = self.draw(badge);
        self.wait_for(rt, &mut seat, number);
        let value = match self.table.shared.exchange(&mut seat, 0, None) {
            Some(value) => value,
            None => unreachable!(),
        };
        let entries = value.entries();
        (
            Held {
                seat,
                shares,
                entries,
            },
            value,
        )
    }

    /// Gives the value back, with the items that this turn added to its history, and ends the turn.
    /// The seat has then seen the whole history.
    pub fn give(&self, held: Held<T>, value: T) -> LockSeat<T::Item>
        requires own { held_id held ≡ lock_id self.now }
        requires grows { GoesOn T.maker (number_in held) (seen_in held) (T.history value) }
        ensures own { seat_id result ≡ lock_id self.now }
        ensures number { number_of result ≡ number_in held }
        ensures stands { stands_of result ≡ stands_in held }
        ensures shares { shares_of result ≡ shares_in held }
        ensures seen { seen_of result ≡ T.history value }
    {
        let Held {
            mut seat,
            shares,
            entries,
        } = held;
        let now = value.entries();
        match self.table.shared.exchange(&mut seat, 0, Some(value)) {
            None => {}
            Some(_) => unreachable!(),
        }
        self.table
            .shared
            .fetch_add::<Count>(&mut seat, ITEMS, now - entries);
        self.leave(&mut seat);
        LockSeat {
            badge: seat.into_badge(),
            shares,
            entries: now,
        }
    }

    // Lets other threads run while a turn is taken, so that a ticket is mostly drawn by a thread
    // that can use it at once: who draws one and doesn't run keeps all later ones waiting.
    fn let_pass(&self) {
        let shared = &self.table.shared;
        for _ in 0..LOOKS {
            if shared.peek(SERVING) == shared.peek(TICKET) {
                return;
            }
            yield_now();
        }
    }

    // The seat's ticket, modulo 2^64.
    fn draw(&self, badge: Badge<View<T::Item>>) -> (Seat<Option<T>, View<T::Item>>, u64)
        requires own { badge.table_id ≡ lock_id self.now }
        requires one { length badge.views ≡ 1 }
        requires at_rest { is_at_rest (view_in badge.views) ≡ true }
        ensures own { result.0.table_id ≡ lock_id self.now }
        ensures drew { (t : _) × (result.0.me ≡ (drew (view_in badge.views) t, []))
            × (result.1 ≡ t % 2 ^ 64) }
    {
        let mut seat = badge.into_seat();
        let number = self.table.shared.fetch_add::<Draw>(&mut seat, TICKET, 1);
        (seat, number)
    }

    // Looks until it is the turn of the ticket. Between the first looks other threads run, then the
    // thread sleeps.
    fn wait_for<R: Wait>(&self, rt: &R, seat: &mut Seat<Option<T>, View<T::Item>>, number: u64)
        requires own { seat.old.table_id ≡ lock_id self.now }
        requires waiting { IsWaiting seat.old.me number }
        ensures own { seat.new.table_id ≡ lock_id self.now }
        ensures enters { Enters T.history T.maker seat.old.me seat.new.me }
    {
        let shared = &self.table.shared;
        let mut looks = 0u32;
        for _ in rt.forever() {
            let serving = shared.load::<Look>(seat, SERVING);
            if serving == number {
                return;
            }
            if looks < LOOKS {
                looks += 1;
                yield_now();
            } else {
                shared.park(rt, SERVING, (serving & LOW) as u32);
            }
        }
        unreachable!()
    }

    // Ends the turn, and wakes those that wait. Who draws a ticket after this thread has read the
    // next one looks at the ticket whose turn it is after that, so it need not be woken.
    fn leave(&self, seat: &mut Seat<Option<T>, View<T::Item>>)
        requires own { seat.old.table_id ≡ lock_id self.now }
        requires turn { IsLeaving T.history seat.old.me }
        ensures own { seat.new.table_id ≡ lock_id self.now }
        ensures outside { seat.new.me ≡ (outside seat.old.me.0, []) }
    {
        let shared = &self.table.shared;
        let served = shared.fetch_add::<Leave>(seat, SERVING, 1);
        if shared.peek(TICKET) != served.wrapping_add(1) {
            shared.wake_all(SERVING);
        }
    }
}
