//! One session, from its first request to its end.

ghost use Rattle.liq_sessions.specs.Sessions.{HasRun, IsReady};

use crate::done::{Replies, SessionDone, SessionEnd, Work};
use crate::gate::Gate;
use crate::script::Script;
use liq_types::{Answer, Desk, Hinter, Reply};
use std::sync::Wait;

/// Asks the requests of a script one after the other, each with the hint that is found for it, up
/// to the first answer that is no reply. The replies go into a list that has room for all of them.
pub(crate) fn run_session<K: Desk, G: Gate, H: Hinter + Drop, W: Wait>(
    rt: &W,
    desk: &K,
    gate: &G,
    work: Work<K, H>,
    mut replies: Vec<Reply>,
) -> SessionDone<K, H>
where
    K::Seat: Drop,
    requires { IsReady (K.belongs desk.now) work replies }
    ensures { HasRun (K.belongs desk.now) K.number K.own K.knows_end K.faulted work result }
{
    let Work {
        script: Script { session, requests },
        mut seat,
        mut hinter,
    } = work;
    let count = requests.len();
    let mut asked = requests.into_asked();
    for before in 0..count {
        let Some(request) = asked.next() else {
            unreachable!();
        };
        let index = before as u32 + 1;
        gate.enter(session, index);
        let hint = hinter.hint_for(&request);
        let (back, answer) = desk.call(rt, seat, &request, &hint);
        gate.leave(session, index, &hint);
        seat = back;
        match answer {
            Answer::Reply(reply) => replies.push_reserved(reply),
            fault => {
                return SessionDone {
                    session,
                    seat,
                    hinter,
                    replies: Replies::of(replies),
                    end: SessionEnd::Fault(fault),
                };
            }
        }
    }
    SessionDone {
        session,
        seat,
        hinter,
        replies: Replies::of(replies),
        end: SessionEnd::All,
    }
}
