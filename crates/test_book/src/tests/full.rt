//! Two sessions at a service whose history comes to be full.
ghost use Rattle.std.specs.Prelude.{◌≡◌, ◌≤◌, None, All, length, map};
ghost use Rattle.liq_sessions.specs.declared.script.TheConstants.{REQUESTS_MOST};
ghost use Rattle.liq_core.specs.Core.{state_of};
ghost use Rattle.liq_book.specs.Origin.{IsAtOrigin, TellsList};
ghost use Rattle.liq_book.specs.Seats.{IsSeatOf};

use crate::tests::checks::same;
use crate::tests::seats::{part, put_back};
use crate::tests::stores::new_store;
use liq_book::{BookSeat, Origin, Service};
use liq_core::laws::protocols_stand;
use liq_outside::Disk;
use liq_sessions::{
    NoHints, OpenGate, Requests, Script, SessionDone, SessionEnd, Work, run_sessions,
};
use liq_store::Store;
use liq_types::{Answer, Desk, Query, Request};
use std::alloc::Global;
use std::marker::Brand;
use std::process::Abort;
use std::sync::Wait;
use std::thread::Threads;

/// How many entries a history has at the most.
const ENTRIES: usize = 1_000_000;

/// A script of so many requests.
fn script(rt: &impl Abort, alloc: Global, session: u8, requests: usize) -> Script
    requires { requests ≤ REQUESTS_MOST }
    ensures { length result.requests ≤ REQUESTS_MOST }
{
    let mut list = Requests::new(alloc);
    for before in 0..requests {
        let asked = Query::NextNumber((before % 1_000) as u32);
        if list.push(Request::Ask(asked)).is_err() {
            panic!(rt; "no memory");
        }
    }
    Script {
        session,
        requests: list,
    }
}

/// A seat gets a script. The test stops where there is no memory for it.
fn give<D: Disk, O: Origin>(
    rt: &impl Abort,
    service: &Service<D, O>,
    seat: BookSeat<O>,
    works: &mut Vec<Work<Service<D, O>, NoHints>>,
    script: Script,
)
    requires seat { IsSeatOf service.now seat }
    requires works { All (λ w. IsSeatOf service.now w.seat) works.old.items }
    requires short { length script.requests ≤ REQUESTS_MOST }
    requires all_short { All (λ w. length w.script.requests ≤ REQUESTS_MOST) works.old.items }
    ensures works { All (λ w. IsSeatOf service.now w.seat) works.new.items }
    ensures all_short { All (λ w. length w.script.requests ≤ REQUESTS_MOST) works.new.items }
{
    let _service = service;
    let work = Work {
        script,
        seat,
        hinter: NoHints,
    };
    works.push(work).expect(rt, "memory");
}

/// How sessions were answered: the replies of all, and how many of them were answered that the
/// history is full.
#[derive(Clone, Copy)]
struct Answered {
    replies: usize,
    full: u64,
}

fn count<D: Disk, O: Origin>(done: &[SessionDone<Service<D, O>, NoHints>]) -> Answered {
    let mut answered = Answered {
        replies: 0,
        full: 0,
    };
    for one in done {
        answered.replies = answered
            .replies
            .saturating_add(one.replies.as_slice().len());
        if let SessionEnd::Fault(Answer::HistoryFull { entries: 1_000_000 }) = one.end {
            answered.full = answered.full.saturating_add(1);
        }
    }
    answered
}

/// The works of two seats, the first one with the first script.
fn two_works<D: Disk, O: Origin>(
    rt: &impl Abort,
    alloc: Global,
    service: &Service<D, O>,
    seats: Vec<BookSeat<O>>,
    first: Script,
    second: Script,
) -> Vec<Work<Service<D, O>, NoHints>>
    requires seats { All (IsSeatOf service.now) seats.items }
    requires first { length first.requests ≤ REQUESTS_MOST }
    requires second { length second.requests ≤ REQUESTS_MOST }
    ensures works { All (λ w. IsSeatOf service.now w.seat) result.items }
    ensures short { All (λ w. length w.script.requests ≤ REQUESTS_MOST) result.items }
{
    let (seats, last) = part(rt, service, seats);
    let (_, one) = part(rt, service, seats);
    let mut works = Vec::new(alloc);
    give(rt, service, one, &mut works, first);
    give(rt, service, last, &mut works, second);
    works
}

/// The seats of sessions that have ended, at any desk.
fn seats_back<K: Desk>(
    rt: &impl Abort,
    alloc: Global,
    mut done: Vec<SessionDone<K, NoHints>>,
) -> Vec<K::Seat>
where
    K::Seat: Drop,
    ensures { result.items ≡ map (λ d. d.seat) done.items }
{
    let Some(last) = done.pop() else {
        return Vec::new(alloc);
    };
    let mut seats = seats_back(rt, alloc, done);
    put_back(rt, &mut seats, last.seat);
    seats
}

/// Ends a service with all its seats.
fn end<D: Disk + Drop, O: Origin, R: Abort + Wait>(
    rt: &R,
    service: Service<D, O>,
    seats: Vec<BookSeat<O>>,
)
    requires { All (IsSeatOf service) seats.items }
{
    match service.close(rt, seats) {
        Ok(_) => {}
        Err(_) => panic!(rt; "still out"),
    }
}

/// Two sessions ask one request more than a history has entries.
fn run_two<D: Disk + Drop + Send, O: Origin + Send + Sync, R: Abort + Threads + Wait + Sync>(
    rt: &R,
    alloc: Global,
    store: Store<D>,
) -> Answered
    requires going { store.stopped ≡ None }
    requires origin { IsAtOrigin D.at O.state O.left O.right store }
    requires listed { TellsList store }
{
    let first = script(rt, alloc, 1, ENTRIES);
    let second = script(rt, alloc, 2, 1);
    let Ok((service, seats, _)) = Service::<D, O>::new(rt, alloc, store, 2) else {
        panic!(rt; "no memory");
    };
    let works = two_works(rt, alloc, &service, seats, first, second);
    match run_sessions(rt, alloc, &service, &OpenGate, works) {
        Ok(done) => {
            let answered = count(&done);
            end(rt, service, seats_back(rt, alloc, done));
            answered
        }
        Err(_) => panic!(rt; "no memory"),
    }
}

/// The same, from where the store is.
fn run_two_over<D: Disk + Drop + Send, R: Abort + Threads + Wait + Sync>(
    rt: &R,
    alloc: Global,
    store: Store<D>,
) -> Answered
    requires going { store.stopped ≡ None }
    requires listed { TellsList store }
{
    // odd: law called
    protocols_stand(store.protocol());
    run_two::<D, Brand, R>(rt, alloc, store)
}

/// The last of all calls is told that the history is full, and every other one has its reply.
#[test]
fn the_history_is_full(rt: HostRuntime) {
    let store = new_store(&rt, rt.alloc());
    let answered = run_two_over(&rt, rt.alloc(), store);
    same(
        &rt,
        answered.replies as u64,
        1_000_000,
        "as many replies as entries",
    );
    same(&rt, answered.full, 1, "a session that found it full");
}
