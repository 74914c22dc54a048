//! Two seats of a service, one of which is out when it is to be closed.
ghost use Rattle.std.specs.Prelude.{◌≡◌, ◌++◌, [], ◌∷◌, None, All};
ghost use Rattle.liq_core.specs.Core.{state_of};
ghost use Rattle.liq_book.specs.Origin.{IsAtOrigin, TellsList};
ghost use Rattle.liq_book.specs.Seats.{IsSeatOf};

use crate::tests::checks::{same, shows};
use crate::tests::stores::new_store;
use liq_book::{BookSeat, Entry, Origin, Service, StillOut};
use liq_core::laws::protocols_stand;
use liq_outside::Disk;
use liq_store::Store;
use liq_types::{Answer, Call, Command, Done, Hint, Info, Query, Reply, Request};
use std::alloc::Global;
use std::marker::Brand;
use std::process::Abort;
use std::sync::Wait;

/// Five gwei come into the wallet of account 1.
const FUND: Request = Request::Do(Command {
    client: 1,
    number: 1,
    call: Call::Fund(1, 5),
});

const FUNDED: Reply = Reply::Said(Done {
    kind: 3,
    values: [0; 6],
});

const LOOK: Request = Request::Ask(Query::Wallet(1));

const LOOKED: Reply = Reply::Told(Info::Wallet { coll: 5, lusd: 0 });

/// The last seat, beside the others. A service that has lost a seat can't be ended, so the test
/// stops where there is none.
pub fn part<D: Disk, O: Origin>(
    rt: &impl Abort,
    service: &Service<D, O>,
    mut seats: Vec<BookSeat<O>>,
) -> (Vec<BookSeat<O>>, BookSeat<O>)
    requires { All (IsSeatOf service.now) seats.items }
    ensures others { All (IsSeatOf service.now) result.0.items }
    ensures last { IsSeatOf service.now result.1 }
{
    let _service = service;
    let Some(seat) = seats.pop() else {
        panic!(rt; "no seat");
    };
    (seats, seat)
}

/// A seat is put behind the others. The test stops where there is no memory for it.
pub fn put_back<S: Drop>(rt: &impl Abort, seats: &mut Vec<S>, seat: S)
    ensures { seats.new.items ≡ seats.old.items ++ seat ∷ [] }
{
    seats.push(seat).expect(rt, "memory");
}

/// The last seat makes a call. The seats, and its answer.
fn call_by_last<D: Disk, O: Origin, R: Abort + Wait>(
    rt: &R,
    service: &Service<D, O>,
    seats: Vec<BookSeat<O>>,
    request: &Request,
) -> (Vec<BookSeat<O>>, Answer)
    requires { All (IsSeatOf service.now) seats.items }
    ensures { All (IsSeatOf service.now) result.0.items }
{
    let (mut seats, seat) = part(rt, service, seats);
    let (seat, answer) = service.call(rt, seat, request, &Hint::NONE);
    put_back(rt, &mut seats, seat);
    (seats, answer)
}

/// What is seen of two seats, of which the first funds a wallet and then the second looks at it and
/// publishes the list.
#[derive(Clone, Copy)]
struct Seen {
    is_funded: bool,
    is_looked: bool,
    /// Whether a finder is shown the version after both calls, which the second publishes.
    is_published: bool,
    /// The second's calls, and the entries that it has seen.
    calls: u32,
    entries: u64,
    end: SeenEnd,
}

/// What is seen of a service that is to be closed with the first seat alone, and then with both.
#[derive(Clone, Copy)]
struct SeenEnd {
    /// How many seats were missing.
    missing: u32,
    is_history: bool,
    is_halted: bool,
}

fn is_entry(entry: &Entry, session: u8, request: &Request, reply: &Reply) -> bool {
    entry.session == session
        && entry.index == 1
        && entry.request == *request
        && entry.reply == *reply
}

/// Whether the entries are the first call of session 1 and then that of session 2.
fn is_history(entries: &[Entry]) -> bool {
    match entries {
        [first, second] => {
            is_entry(first, 1, &FUND, &FUNDED) && is_entry(second, 2, &LOOK, &LOOKED)
        }
        _ => false,
    }
}

/// The service does not close without the other seat, and does with it.
fn close_late<D: Disk + Drop, O: Origin, R: Abort + Wait>(
    rt: &R,
    service: Service<D, O>,
    seats: Vec<BookSeat<O>>,
    other: BookSeat<O>,
) -> SeenEnd
    requires seats { All (IsSeatOf service) seats.items }
    requires other { IsSeatOf service other }
{
    let StillOut {
        service,
        mut seats,
        missing,
    } = match service.close(rt, seats) {
        Err(out) => out,
        Ok(_) => panic!(rt; "closed with a seat out"),
    };
    put_back(rt, &mut seats, other);
    match service.close(rt, seats) {
        Ok(closed) => SeenEnd {
            missing,
            is_history: is_history(closed.history.as_slice()),
            is_halted: closed.halt.is_some(),
        },
        Err(_) => panic!(rt; "still out"),
    }
}

/// Two seats over a store: each makes a call, and the second publishes; the service does not close
/// without the second.
fn two_seats<D: Disk + Drop, O: Origin, R: Abort + Wait>(
    rt: &R,
    alloc: Global,
    store: Store<D>,
) -> Seen
    requires going { store.stopped ≡ None }
    requires origin { IsAtOrigin D.at O.state O.left O.right store }
    requires listed { TellsList store }
{
    let Ok((service, seats, mut finders)) = Service::<D, O>::new(rt, alloc, store, 2) else {
        panic!(rt; "no memory");
    };
    let (seats, other) = part(rt, &service, seats);
    let (seats, funded) = call_by_last(rt, &service, seats, &FUND);
    let (other, looked) = service.call(rt, other, &LOOK, &Hint::NONE);
    let (other, published) = service.publish(rt, other);
    let version = finders.pop().map(|mut finder| finder.version());
    let (calls, entries) = (other.calls(), other.seen());
    let end = close_late(rt, service, seats, other);
    Seen {
        is_funded: funded == Answer::Reply(FUNDED),
        is_looked: looked == Answer::Reply(LOOKED),
        is_published: published.is_ok() && version == Some(2),
        calls,
        entries,
        end,
    }
}

/// The same, from where the store is.
fn two_seats_over<D: Disk + Drop, R: Abort + Wait>(rt: &R, alloc: Global, store: Store<D>) -> Seen
    requires going { store.stopped ≡ None }
    requires listed { TellsList store }
{
    // odd: law called
    protocols_stand(store.protocol());
    two_seats::<D, Brand, R>(rt, alloc, store)
}

#[test]
fn a_seat_is_out(rt: HostRuntime) {
    let store = new_store(&rt, rt.alloc());
    let seen = two_seats_over(&rt, rt.alloc(), store);
    shows(&rt, "the first funds", seen.is_funded);
    shows(&rt, "the second looks", seen.is_looked);
    shows(&rt, "it is published", seen.is_published);
    same(&rt, u64::from(seen.calls), 1, "the second's calls");
    same(&rt, seen.entries, 2, "entries that it has seen");
    same(&rt, u64::from(seen.end.missing), 1, "a missing seat");
    shows(&rt, "the history", seen.end.is_history);
    shows(&rt, "no halt", !seen.end.is_halted);
}
