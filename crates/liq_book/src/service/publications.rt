//! A publication of a service: a turn at the lock in which the list's changes go out.
ghost use Rattle.std.specs.Prelude.{◌≡◌, IfOk, length};
ghost use Rattle.liq_book.specs.Answered.{SeesOthers};
ghost use Rattle.liq_book.specs.Items.{entries_of};
ghost use Rattle.liq_book.specs.Seats.{IsSeatOf, calls_at, items_seen, session_at};

use super::Service;
use crate::origin::Origin;
use crate::seat::BookSeat;
use liq_outside::Disk;
use liq_types::NoMemory;
use liq_views::Publication;
use std::marker::PhantomData;
use std::sync::Wait;

impl<D: Disk, O: Origin> Service<D, O> {
    /// Publishes the list of this moment when the seat's turn has come, as the version after all
    /// entries. What the seat then has seen begins with what it had seen, and nothing of its
    /// session is new. The publication is told by its number, which is that of the entries that the
    /// seat then has seen. Without memory finders are shown what they were shown before, and the
    /// next publication tells what this one would have told.
    pub fn publish<W: Wait>(
        &self,
        rt: &W,
        seat: BookSeat<O>,
    ) -> (BookSeat<O>, Result<Publication, NoMemory>)
        requires own { IsSeatOf self.now seat }
        ensures own { IsSeatOf self.now result.0 }
        ensures session { session_at result.0 ≡ session_at seat }
        ensures calls { calls_at result.0 ≡ calls_at seat }
        ensures others { SeesOthers (session_at seat) (items_seen seat) (items_seen result.0) }
        ensures sent { IfOk result.1
            (λ sent. sent.number ≡ length (entries_of (items_seen result.0))) }
    {
        let (session, calls) = (seat.session, seat.calls);
        let (held, mut book) = self.lock.take(rt, seat.seat);
        let sent = book.publish(rt);
        let seat = BookSeat {
            seat: self.lock.give(held, book),
            session,
            calls,
            of: PhantomData,
        };
        (seat, sent)
    }
}
