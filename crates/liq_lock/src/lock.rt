//! The lock and a turn at it. Three words are counted on, by atomic steps: the next ticket, the
//! ticket whose turn it is, and the number of items. A fourth place is the slot of the value.
ghost use Rattle.std.specs.Prelude.{◌≡◌, ◌<◌, true, length};
ghost use Rattle.liq_lock.specs.Views.{is_turn, is_empty_hand};

mod ends;
mod joins;
mod made;
mod turns;

use crate::chronicle::Chronicle;
use crate::rule::Turns;
use crate::seat::LockSeat;
use crate::view::View;
use atomic_table::{Seat, Table};
use std::alloc::Global;

// The words of the table: the next ticket, the ticket whose turn it is, and the number of items.
const TICKET: usize = 0;

const SERVING: usize = 1;

const ITEMS: usize = 2;

/// A lock round a value with a history.
pub struct Lock<T: Chronicle> {
    pub(crate) table: Table<Option<T>, View<T::Item>, u32, Turns, Global>,
    pub(crate) seats: u32,
    pub ghost sized: { (table.shared.table_id.words ≡ 3) × (table.shared.table_id.slots ≡ 1)
        × (table.shared.key ≡ seats) × (0 < seats) },
}

// odd: drop written out
impl<T: Chronicle + Drop> Drop for Lock<T> {
    fn drop(self) {
        let Lock { table: _, seats: _ } = self;
    }
}

/// A lock that was to be closed while seats were missing, with the seat and the shares that it has.
/// Both are as they were.
#[derive(Drop)]
pub struct StillShared<T: Chronicle> {
    pub lock: Lock<T>,
    pub seat: LockSeat<T::Item>,
    pub shares: u32,
}

/// A turn at the lock: the value is out with it. It is given back with the value by `Lock::give`.
pub struct Held<T: Chronicle> {
    pub(crate) seat: Seat<Option<T>, View<T::Item>>,
    pub(crate) shares: u32,
    pub(crate) entries: u64,
    pub ghost turn: { is_turn seat.me.0 ≡ true },
    pub ghost empty_hand: { is_empty_hand seat.me.1 ≡ true },
    pub ghost shares_are: { seat.me.0.shares ≡ shares },
    pub ghost entries_are: { length seat.me.0.seen ≡ entries },
}
