//! A session's seat at a service, which has seen a beginning of the chronicle.
ghost use Rattle.std.specs.Prelude.{◌≡◌, [], ◌∷◌, length};
ghost use Rattle.liq_rule_step.specs.History.{own_entries};
ghost use Rattle.liq_lock.specs.Seats.{number_of, stands_of, seen_of, shares_of};
ghost use Rattle.liq_book.specs.Items.{entries_of};

use crate::items::Item;
use crate::origin::Origin;
use liq_lock::LockSeat;
use std::marker::PhantomData;

/// A session's seat at a service. It has seen a beginning of the chronicle.
#[derive(Drop)]
pub struct BookSeat<O: Origin> {
    pub(crate) seat: LockSeat<Item>,
    pub(crate) session: u8,
    pub(crate) calls: u32,
    pub(crate) of: PhantomData<O>,
    pub ghost numbered: { number_of seat ≡ session },
    pub ghost stands: { stands_of seat ≡ session ∷ [] },
    pub ghost share: { shares_of seat ≡ 1 },
    pub ghost counted: { length (own_entries session (entries_of (seen_of seat))) ≡ calls },
}

impl<O: Origin> BookSeat<O> {
    ghost use Rattle.liq_book.specs.Seats.{calls_at, items_seen, session_at};

    /// The session, which is the seat's number.
    pub fn session(&self) -> u8
        ensures { result ≡ session_at self.now }
    {
        self.session
    }

    /// How many of the session's calls got a reply.
    pub fn calls(&self) -> u32
        ensures { result ≡ calls_at self.now }
    {
        self.calls
    }

    /// How many items of the chronicle the seat has seen.
    pub fn seen(&self) -> u64
        ensures { result ≡ length (items_seen self.now) }
    {
        self.seat.seen()
    }
}
