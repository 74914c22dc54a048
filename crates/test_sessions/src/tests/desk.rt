//! A desk whose replies are made up: each shows its session and the place of its call.
ghost use Rattle.std.specs.Prelude.{◌≡◌, true};

use crate::tests::gates::{CALL, HINT, Watch};
use liq_types::{Answer, Desk, Hint, Hinter, Info, Reply, Request};
use std::sync::{Arc, Wait};

/// The reply to a session's call, which are counted from 1.
pub fn made_up(session: u8, index: u64) -> Reply {
    Reply::Told(Info::Wallet {
        coll: u64::from(session),
        lusd: index,
    })
}

/// What a session meets in place of a reply.
#[derive(Clone, Copy)]
pub enum Trouble {
    NoMemory,
    DiskFault,
    Stopped,
}

/// A seat, with its own calls.
#[derive(Drop)]
pub struct MadeUpSeat {
    pub session: u8,
    pub calls: Vec<(Request, Reply)>,
    pub ended: bool,
    pub faulted: Option<Request>,
}

/// A desk that replies to so many calls of each session, and then makes trouble. Its watch notes a
/// miss where a call comes with another hint than the one that was found for it.
#[derive(Drop)]
pub struct MadeUpDesk {
    pub watch: Arc<Watch>,
    pub replies: usize,
    pub trouble: Trouble,
}

impl Desk for MadeUpDesk {
    type Seat = MadeUpSeat;

    ghost belongs = { λ desk seat. Unit {0} };

    ghost number = { λ seat. seat.session };

    ghost own = { λ seat. seat.calls.items };

    ghost knows_end = { λ seat. seat.ended ≡ true };

    ghost faulted = { λ seat. seat.faulted };

    fn call<W: Wait>(
        &self,
        _rt: &W,
        mut seat: MadeUpSeat,
        request: &Request,
        hint: &Hint,
    ) -> (MadeUpSeat, Answer) {
        self.watch.step(seat.session, CALL);
        let index = seat.calls.len() as u64 + 1;
        self.watch.compare_hint(seat.session, index, hint);
        if seat.calls.len() < self.replies {
            let reply = made_up(seat.session, index);
            return match seat.calls.push((*request, reply)) {
                Ok(()) => (seat, Answer::Reply(reply)),
                Err(_) => (seat, Answer::NoMemory),
            };
        }
        match self.trouble {
            Trouble::NoMemory => (seat, Answer::NoMemory),
            Trouble::DiskFault => {
                seat.ended = true;
                seat.faulted = Some(*request);
                (seat, Answer::DiskFault)
            }
            Trouble::Stopped => {
                seat.ended = true;
                (seat, Answer::Stopped { faults: 1 })
            }
        }
    }
}

/// Finds hints that tell their session and the place of the call, which are counted from 1.
#[derive(Drop)]
pub struct CountedHints {
    pub watch: Arc<Watch>,
    pub session: u8,
    pub made: u64,
}

/// The hint of a session's call.
pub fn hint_of(session: u8, index: u64) -> Hint {
    Hint {
        prev: Some(u32::from(session)),
        next: None,
        version: index,
    }
}

impl Hinter for CountedHints {
    fn hint_for(&mut self, _request: &Request) -> Hint {
        self.watch.step(self.session, HINT);
        self.made = self.made.saturating_add(1);
        hint_of(self.session, self.made)
    }
}
