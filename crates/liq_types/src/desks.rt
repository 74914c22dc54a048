//! Who answers requests, and who finds hints for them.

ghost use Rattle.std.specs.Prelude.{◌≡◌, ℕ, List, Option};
ghost use Rattle.liq_types.specs.Desks.{own_after, faulted_after, EndsKnown};
ghost use Rattle.liq_types.specs.declared.replies.Reply.{Reply};
ghost use Rattle.liq_types.specs.declared.requests.Request.{Request};

use crate::hints::Hint;
use crate::replies::Answer;
use crate::requests::Request;
use std::sync::Wait;

/// Where the requests of sessions are answered, one session at each seat.
pub trait Desk {
    /// What a session holds at the desk. Each call takes it and gives it back.
    type Seat;

    /// The seat is one of this desk.
    ghost belongs: { Self → Self.Seat → Type 0 };

    /// The seat's number.
    ghost number: { Self.Seat → ℕ };

    /// The seat's own requests that were answered, with their replies, in order.
    ghost own: { Self.Seat → List (Request × Reply) };

    /// The seat knows that the service ends.
    ghost knows_end: { Self.Seat → Type 0 };

    /// The last of the seat's own requests that met a fault of a disk.
    ghost faulted: { Self.Seat → Option Request };

    /// Answers a request of the seat's session. Where it is a reply, both join the seat's own,
    /// which else stay. Every answer but a reply and want of memory needs a seat that has learnt of
    /// an end of service.
    fn call<W: Wait>(
        &self,
        rt: &W,
        seat: Self::Seat,
        request: &Request,
        hint: &Hint,
    ) -> (Self::Seat, Answer)
        requires belongs { belongs self.now seat }
        ensures belongs { belongs self.now result.0 }
        ensures number { number result.0 ≡ number seat }
        ensures own { own result.0 ≡ own_after (own seat) request.now result.1 }
        ensures faulted { faulted result.0 ≡ faulted_after (faulted seat) request.now result.1 }
        ensures end { EndsKnown (knows_end result.0) result.1 };
}

/// Who finds hints. A hint saves steps and changes no reply.
pub trait Hinter {
    /// A hint for the trove that the request would place.
    fn hint_for(&mut self, request: &Request) -> Hint;
}
