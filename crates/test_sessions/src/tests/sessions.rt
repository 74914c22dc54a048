//! Sessions at a desk whose replies are made up.
ghost use Rattle.std.specs.Prelude.{◌≤◌, All, length};
ghost use Rattle.liq_sessions.specs.declared.script.TheConstants.{REQUESTS_MOST};

use crate::tests::checks::{NOWHERE, same, shows};
use crate::tests::desk::{CountedHints, MadeUpDesk, MadeUpSeat, Trouble, made_up};
use crate::tests::gates::Watch;
use liq_sessions::{
    NoHints, OpenGate, Requests, Script, SessionDone, SessionEnd, Work, run_sessions,
};
use liq_types::{Answer, Hinter, Query, Reply, Request};
use std::alloc::Global;
use std::process::Abort;
use std::sync::{Arc, Wait};
use std::thread::Threads;

/// The request at a place of each script, which are counted from 1.
fn request_at(index: u64) -> Request {
    Request::Ask(Query::NextNumber((index % 1_000) as u32))
}

/// A script of so many requests.
pub fn script(rt: &impl Abort, alloc: Global, session: u8, requests: usize) -> Script
    requires { requests ≤ REQUESTS_MOST }
    ensures { length result.requests ≤ REQUESTS_MOST }
{
    let mut list = Requests::new(alloc);
    for before in 0..requests {
        if list.push(request_at(before as u64 + 1)).is_err() {
            panic!(rt; "no memory");
        }
    }
    Script {
        session,
        requests: list,
    }
}

/// A seat that has made no call.
fn seat(alloc: Global, session: u8) -> MadeUpSeat {
    MadeUpSeat {
        session,
        calls: Vec::new(alloc),
        ended: false,
        faulted: None,
    }
}

/// The work of a session with so many requests.
fn work(
    rt: &impl Abort,
    alloc: Global,
    watch: &Arc<Watch>,
    session: u8,
    requests: usize,
) -> Work<MadeUpDesk, CountedHints>
    requires { requests ≤ REQUESTS_MOST }
    ensures { length result.script.requests ≤ REQUESTS_MOST }
{
    let hinter = CountedHints {
        watch: Arc::try_clone(watch).expect(rt, "memory"),
        session,
        made: 0,
    };
    Work {
        script: script(rt, alloc, session, requests),
        seat: seat(alloc, session),
        hinter,
    }
}

/// The works of sessions from 1 on, with so many requests each.
fn works(
    rt: &impl Abort,
    alloc: Global,
    watch: &Arc<Watch>,
    sessions: u8,
    requests: usize,
) -> Vec<Work<MadeUpDesk, CountedHints>>
    requires { requests ≤ REQUESTS_MOST }
    ensures { All (λ w. length w.script.requests ≤ REQUESTS_MOST) result.items }
{
    let mut works = Vec::new(alloc);
    for before in 0..sessions {
        let work = work(rt, alloc, watch, before + 1, requests);
        works.push(work).expect(rt, "memory");
    }
    works
}

/// Whether a reply is a session's own at this place, and the call is that of its script with just
/// this reply.
fn is_made_up(session: u8, index: u64, reply: &Reply, call: &(Request, Reply)) -> bool {
    let (request, given) = call;
    let expected = made_up(session, index);
    *reply == expected && *given == expected && *request == request_at(index)
}

/// Whether the replies are a session's own, in order, and the calls are those of its script with
/// just these replies.
fn are_made_up(session: u8, replies: &[Reply], calls: &[(Request, Reply)]) -> bool {
    let mut index = 0u64;
    for (reply, call) in replies.iter().zip(calls.iter()) {
        index = index.wrapping_add(1);
        if !is_made_up(session, index, reply, call) {
            return false;
        }
    }
    replies.len() == calls.len()
}

/// What a session is to come to: so many replies, then this answer that is none, and the request at
/// which its seat met a fault.
#[derive(Clone, Copy)]
struct Wanted {
    replies: usize,
    answer: Option<Answer>,
    faulted: Option<Request>,
}

/// Whether a session came to what is wanted.
fn is_done<H: Hinter + Drop>(
    done: &SessionDone<MadeUpDesk, H>,
    session: u8,
    wanted: &Wanted,
) -> bool {
    let replies = done.replies.as_slice();
    let answer = match done.end {
        SessionEnd::All => None,
        SessionEnd::Fault(met) => Some(met),
    };
    done.session == session
        && done.seat.session == session
        && replies.len() == wanted.replies
        && are_made_up(session, replies, &done.seat.calls)
        && answer == wanted.answer
        && done.seat.faulted == wanted.faulted
}

/// The first of the sessions, from 1 on, that came to something else, or made another number of
/// steps.
fn first_odd(
    done: &[SessionDone<MadeUpDesk, CountedHints>],
    watch: &Watch,
    wanted: &Wanted,
    steps: u64,
) -> u64 {
    let mut session = 0u8;
    for one in done {
        session = session.wrapping_add(1);
        if !is_done(one, session, wanted) || watch.steps(session) != steps {
            return u64::from(session);
        }
    }
    NOWHERE
}

/// What is asked of how many sessions, and how many replies their desk has before it makes trouble.
#[derive(Clone, Copy)]
struct Setting {
    sessions: u8,
    replies: usize,
    trouble: Trouble,
}

/// What is seen of sessions: how many there were, the first that is odd, and whether a step was out
/// of its order.
#[derive(Clone, Copy)]
struct Seen {
    sessions: u64,
    odd: u64,
    missed: bool,
}

/// Runs sessions with so many requests each.
fn run_watched<R: Abort + Threads + Wait + Sync>(
    rt: &R,
    alloc: Global,
    watch: &Arc<Watch>,
    setting: &Setting,
    requests: usize,
) -> Vec<SessionDone<MadeUpDesk, CountedHints>>
    requires { requests ≤ REQUESTS_MOST }
{
    let desk = MadeUpDesk {
        watch: Arc::try_clone(watch).expect(rt, "memory"),
        replies: setting.replies,
        trouble: setting.trouble,
    };
    let works = works(rt, alloc, watch, setting.sessions, requests);
    match run_sessions(rt, alloc, &desk, &**watch, works) {
        Ok(done) => done,
        Err(_) => panic!(rt; "no memory"),
    }
}

/// Runs sessions through a gate that watches them: each call is entered, hinted, made and left.
fn see<R: Abort + Threads + Wait + Sync>(
    rt: &R,
    alloc: Global,
    setting: &Setting,
    requests: usize,
    wanted: &Wanted,
    steps: u64,
) -> Seen
    requires { requests ≤ REQUESTS_MOST }
{
    let watch = Arc::new(alloc, Watch::new()).expect(rt, "memory");
    let done = run_watched(rt, alloc, &watch, setting, requests);
    Seen {
        sessions: done.len() as u64,
        odd: first_odd(&done, &watch, wanted, steps),
        missed: watch.has_missed(),
    }
}

/// Eight sessions at once: each gets all its replies in order.
#[test]
fn eight_sessions(rt: HostRuntime) {
    let setting = Setting {
        sessions: 8,
        replies: 2_000,
        trouble: Trouble::Stopped,
    };
    let wanted = Wanted {
        replies: 2_000,
        answer: None,
        faulted: None,
    };
    let seen = see(&rt, rt.alloc(), &setting, 2_000, &wanted, 8_000);
    same(&rt, seen.sessions, 8, "eight sessions");
    same(&rt, seen.odd, NOWHERE, "a session of eight");
    shows(&rt, "each step in its order", !seen.missed);
}

/// Each trouble, the answer that a session gets, and the request at which its seat met a fault.
const TROUBLES: [(Trouble, Answer, Option<Request>); 3] = [
    (Trouble::NoMemory, Answer::NoMemory, None),
    (
        Trouble::DiskFault,
        Answer::DiskFault,
        Some(Request::Ask(Query::NextNumber(4))),
    ),
    (Trouble::Stopped, Answer::Stopped { faults: 1 }, None),
];

/// Runs two sessions that come to this trouble behind three replies each.
fn see_trouble<R: Abort + Threads + Wait + Sync>(
    rt: &R,
    alloc: Global,
    trouble: Trouble,
    answer: Answer,
    faulted: Option<Request>,
) -> Seen {
    let setting = Setting {
        sessions: 2,
        replies: 3,
        trouble,
    };
    let wanted = Wanted {
        replies: 3,
        answer: Some(answer),
        faulted,
    };
    see(rt, alloc, &setting, 5, &wanted, 16)
}

/// A session ends at the first answer that is no reply. That call is left too, and no later one is
/// made.
#[test]
fn each_trouble(rt: HostRuntime) {
    for (trouble, answer, faulted) in TROUBLES {
        let seen = see_trouble(&rt, rt.alloc(), trouble, answer, faulted);
        same(&rt, seen.sessions, 2, "sessions in trouble");
        same(&rt, seen.odd, NOWHERE, "a session in trouble");
        shows(&rt, "each step before the trouble", !seen.missed);
    }
}

/// The work of a session that looks for no hints.
fn quiet_work(
    rt: &impl Abort,
    alloc: Global,
    session: u8,
    requests: usize,
) -> Work<MadeUpDesk, NoHints>
    requires { requests ≤ REQUESTS_MOST }
    ensures { length result.script.requests ≤ REQUESTS_MOST }
{
    Work {
        script: script(rt, alloc, session, requests),
        seat: seat(alloc, session),
        hinter: NoHints,
    }
}

/// Runs sessions that look for no hints, through an open gate, at a desk with one reply for each.
fn run_quiet<R: Abort + Threads + Wait + Sync>(
    rt: &R,
    alloc: Global,
    works: Vec<Work<MadeUpDesk, NoHints>>,
) -> Vec<SessionDone<MadeUpDesk, NoHints>>
    requires { All (λ w. length w.script.requests ≤ REQUESTS_MOST) works.items }
{
    let desk = MadeUpDesk {
        watch: Arc::new(alloc, Watch::new()).expect(rt, "memory"),
        replies: 1,
        trouble: Trouble::Stopped,
    };
    match run_sessions(rt, alloc, &desk, &OpenGate, works) {
        Ok(done) => done,
        Err(_) => panic!(rt; "no memory"),
    }
}

/// Whether the first session got its one reply, and the second, which asks nothing, none.
fn are_quiet(done: &[SessionDone<MadeUpDesk, NoHints>]) -> bool {
    let mut wanted = Wanted {
        replies: 1,
        answer: None,
        faulted: None,
    };
    match done {
        [one, other] => {
            let is_one = is_done(one, 7, &wanted);
            wanted.replies = 0;
            is_one && is_done(other, 5, &wanted)
        }
        _ => false,
    }
}

/// The works of a session with one request, and of one with none.
fn quiet_works(rt: &impl Abort, alloc: Global) -> Vec<Work<MadeUpDesk, NoHints>>
    ensures { All (λ w. length w.script.requests ≤ REQUESTS_MOST) result.items }
{
    let mut works = Vec::new(alloc);
    works.push(quiet_work(rt, alloc, 7, 1)).expect(rt, "memory");
    works.push(quiet_work(rt, alloc, 5, 0)).expect(rt, "memory");
    works
}

#[test]
fn quiet_sessions(rt: HostRuntime) {
    let works = quiet_works(&rt, rt.alloc());
    let done = run_quiet(&rt, rt.alloc(), works);
    shows(&rt, "one request and none", are_quiet(&done));
}

#[test]
fn no_sessions(rt: HostRuntime) {
    let done = run_quiet(&rt, rt.alloc(), Vec::new(rt.alloc()));
    same(&rt, done.len() as u64, 0, "no sessions");
}
