//! A call at a service: one turn at the lock.
ghost use Rattle.std.specs.Prelude.{◌≡◌};
ghost use Rattle.liq_types.specs.Desks.{own_after, faulted_after, EndsKnown};
ghost use Rattle.liq_rule_step.specs.History.{IsLegal};
ghost use Rattle.liq_book.specs.Answered.{Answered, IsLimited};
ghost use Rattle.liq_book.specs.Items.{ShowsEnd, calls_of, entries_of, faulted_in};
ghost use Rattle.liq_book.specs.Seats.{IsSeatOf, calls_at, items_seen, session_at};

use super::Service;
use crate::origin::Origin;
use crate::seat::BookSeat;
use liq_outside::Disk;
use liq_types::{Answer, Desk, Hint, Request};
use std::marker::PhantomData;
use std::sync::Wait;

impl<D: Disk, O: Origin> Service<D, O> {
    /// Answers a session's request when its turn has come. What the seat then has seen begins with
    /// what it had seen. On a reply it ends with this call's entry, and the reply is the one of the
    /// rules after all entries before it; on any other answer nothing of the session is new but, at
    /// a disk's fault, the halt of this request. `Stopped` comes only behind a halt. `HistoryFull`
    /// comes exactly where there are [`crate::ENTRIES_MOST`] entries, before anything else.
    pub fn call<W: Wait>(
        &self,
        rt: &W,
        seat: BookSeat<O>,
        request: &Request,
        hint: &Hint,
    ) -> (BookSeat<O>, Answer)
        requires own { IsSeatOf self.now seat }
        ensures own { IsSeatOf self.now result.0 }
        ensures session { session_at result.0 ≡ session_at seat }
        ensures answered { Answered O.state (session_at seat) (calls_at seat) request.now result.1
            (items_seen seat) (items_seen result.0) }
        ensures limited { IsLimited result.1 (items_seen result.0) }
        ensures legal { IsLegal O.state (entries_of (items_seen result.0)) }
    {
        let (session, calls) = (seat.session, seat.calls);
        let (held, mut book) = self.lock.take(rt, seat.seat);
        match book.call(session, calls, request, hint) {
            Answer::Reply(reply) => {
                let seat = BookSeat {
                    seat: self.lock.give(held, book),
                    session,
                    calls: calls + 1,
                    of: PhantomData,
                };
                (seat, Answer::Reply(reply))
            }
            other => {
                let seat = BookSeat {
                    seat: self.lock.give(held, book),
                    session,
                    calls,
                    of: PhantomData,
                };
                (seat, other)
            }
        }
    }
}

impl<D: Disk, O: Origin> Desk for Service<D, O> {
    type Seat = BookSeat<O>;

    ghost belongs = { λ service seat. IsSeatOf service seat };

    ghost number = { λ seat. session_at seat };

    ghost own = { λ seat. calls_of (session_at seat) (items_seen seat) };

    ghost knows_end = { λ seat. ShowsEnd (items_seen seat) };

    ghost faulted = { λ seat. faulted_in (session_at seat) (items_seen seat) };

    fn call<W: Wait>(
        &self,
        rt: &W,
        seat: BookSeat<O>,
        request: &Request,
        hint: &Hint,
    ) -> (BookSeat<O>, Answer) {
        self.call(rt, seat, request, hint)
    }
}
