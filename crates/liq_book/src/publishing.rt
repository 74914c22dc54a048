//! A publication, and a desk that publishes the list behind each call that changed it.
ghost use Rattle.std.specs.Prelude.{◌≡◌, ◌≤◌, ◌⊎◌, ◌↔◌, ◌++◌, [], ◌∷◌, length};
ghost use Rattle.std.specs.Prelude.{IfOk, IfSome, IsSome, MatchResult};
ghost use Rattle.liq_types.specs.Desks.{own_after, faulted_after, EndsKnown};
ghost use Rattle.liq_views.specs.Batches.{last_from};
ghost use Rattle.liq_views.specs.Publishers.{published, waiting};
ghost use Rattle.liq_book.specs.Items.{ShowsEnd, calls_of, entries_of, faulted_in};
ghost use Rattle.liq_book.specs.Publishing.{ChangesList};
ghost use Rattle.liq_book.specs.Seats.{IsSeatOf, items_seen, session_at};

use crate::kinds::changes_list;
use crate::origin::Origin;
use crate::seat::BookSeat;
use crate::service::Service;
use liq_outside::Disk;
use liq_store::Store;
use liq_types::{Answer, Desk, Hint, NoMemory, Request};
use liq_views::{Publication, Publisher};
use std::sync::Wait;

/// A service as a desk that publishes the list behind each accepted command that may have changed
/// it, in a turn of its own. A publication for which there is no memory is passed over: the next
/// one makes up for it.
#[derive(Drop)]
pub struct Publishing<'a, D: Disk, O: Origin> {
    service: &'a Service<D, O>,
}

impl<'a, D: Disk, O: Origin> Publishing<'a, D, O> {
    /// A desk over this service.
    pub fn new(service: &'a Service<D, O>) -> Publishing<'a, D, O>
        ensures { result.service.now ≡ service.now }
    {
        Publishing { service }
    }

    /// A turn for the call; and, exactly behind the reply of an accepted command that may have
    /// changed the list, one for a publication, of which it is told what came.
    pub fn call_then_publish<W: Wait>(
        &self,
        rt: &W,
        seat: BookSeat<O>,
        request: &Request,
        hint: &Hint,
    ) -> (BookSeat<O>, Answer, Option<Result<Publication, NoMemory>>)
        requires own { IsSeatOf self.now.service.now seat }
        ensures own { IsSeatOf self.now.service.now result.0 }
        ensures session { session_at result.0 ≡ session_at seat }
        ensures calls { calls_of (session_at seat) (items_seen result.0)
            ≡ own_after (calls_of (session_at seat) (items_seen seat)) request.now result.1 }
        ensures faulted { faulted_in (session_at seat) (items_seen result.0)
            ≡ faulted_after (faulted_in (session_at seat) (items_seen seat)) request.now result.1 }
        ensures end { EndsKnown (ShowsEnd (items_seen result.0)) result.1 }
        ensures published { IsSome result.2 ↔ ChangesList result.1 }
        ensures number { IfSome result.2 (λ sent.
            IfOk sent (λ p. p.number ≡ length (entries_of (items_seen result.0)))) }
    {
        let (seat, answer) = Desk::call(self.service, rt, seat, request, hint);
        if changes_list(&answer) {
            let (seat, sent) = self.service.publish(rt, seat);
            (seat, answer, Some(sent))
        } else {
            (seat, answer, None)
        }
    }
}

impl<'a, D: Disk, O: Origin> Desk for Publishing<'a, D, O> {
    type Seat = BookSeat<O>;

    ghost belongs = { λ desk seat. IsSeatOf desk.service.now seat };

    ghost number = { λ seat. session_at seat };

    ghost own = { λ seat. calls_of (session_at seat) (items_seen seat) };

    ghost knows_end = { λ seat. ShowsEnd (items_seen seat) };

    ghost faulted = { λ seat. faulted_in (session_at seat) (items_seen seat) };

    fn call<W: Wait>(
        &self,
        rt: &W,
        seat: BookSeat<O>,
        request: &Request,
        hint: &Hint,
    ) -> (BookSeat<O>, Answer) {
        let (seat, answer, _) = self.call_then_publish(rt, seat, request, hint);
        (seat, answer)
    }
}

/// Publishes what the store has to tell of its list, as this version, and lets that go. Without
/// memory the store keeps it, and tells the same at the next publication.
pub(crate) fn publish<D: Disk, W: Wait>(
    store: &mut Store<D>,
    publisher: &mut Publisher,
    rt: &W,
    number: u64,
) -> Result<Publication, NoMemory>
    requires { last_from 0 (published publisher.old ++ waiting publisher.old) ≤ number }
    ensures number { IfOk result (λ sent. sent.number ≡ number) }
    ensures sent { MatchResult result
        (λ _. (published publisher.new ≡ published publisher.old ++ (waiting publisher.old
        ++ record { changes = store.old.changes; number = number } ∷ []))
        × (waiting publisher.new ≡ []))
        (λ _. (published publisher.new ≡ published publisher.old)
        × ((waiting publisher.new ≡ waiting publisher.old)
        ⊎ (waiting publisher.new ≡ waiting publisher.old
        ++ record { changes = store.old.changes; number = number } ∷ []))) }
    ensures told { MatchResult result (λ _. store.new ≡ record store.old { changes = [] })
        (λ _. store.new ≡ store.old) }
{
    match publisher.publish(rt, store.changes(), number) {
        Ok(sent) => {
            store.clear_changes();
            Ok(sent)
        }
        Err(NoMemory) => Err(NoMemory),
    }
}
