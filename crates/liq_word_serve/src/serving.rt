//! Serves all scripts at once, a thread a session.

ghost use Rattle.std.specs.Prelude.{◌≡◌, ◌≤◌, All, [], length};
ghost use Rattle.liq_types.specs.State.{State};
ghost use Rattle.liq_core.specs.Core.{StandsFor};
ghost use Rattle.liq_store.specs.Keeping.{IsInOrder};
ghost use Rattle.liq_book.specs.Origin.{IsAtOrigin};
ghost use Rattle.liq_book.specs.Seats.{IsSeatOf, sessions_of};
ghost use Rattle.liq_word_serve.specs.Leaves.{Leaves};
ghost use Rattle.liq_word_serve.specs.Serves.{IsServable, Serves};

use crate::seats::run_at;
use crate::served::{End, Served, end_of_service};
use liq_book::{BookSeat, History, Origin, Publishing, Service};
use liq_core::laws::protocols_stand;
use liq_outside::Disk;
use liq_sessions::{Gate, Script};
use liq_store::Store;
use std::alloc::Global;
use std::marker::Brand;
use std::sync::Wait;
use std::thread::Threads;

/// Scripts, and the store over which they can be served.
struct ServableScripts<D: Disk> {
    scripts: Vec<Script>,
    store: Store<D>,
    ghost servable: { IsServable scripts.items store },
}

/// Serves the scripts of the sessions from 1 on, all at once, over a store that is open: a book is
/// made with a seat for each, the sessions run, each asking a finder of its own for a hint before a
/// call and publishing the list behind one that changed it, all seats come back, and the book is
/// closed. All scripts together have at most [`liq_book::ENTRIES_MOST`] requests, so that the book
/// is never full.
///
/// The history is legal from each state for which the store's protocol stands. A disk's count rose
/// exactly where the end is [`End::DiskFault`].
pub fn serve_sessions<D: Disk + Send, G: Gate + Sync, R: Threads + Wait + Sync>(
    rt: &R,
    alloc: Global,
    gate: &G,
    scripts: Vec<Script>,
    store: Store<D>,
) -> Served<D>
    requires servable { IsServable scripts.items store }
    ensures { (s : State) → StandsFor store.core s
        → Serves D.at s (D.at store.left) (D.at store.right) scripts.items result }
{
    // odd: law called
    protocols_stand(store.protocol());
    let asked = ServableScripts { scripts, store };
    serve_from::<D, Brand, G, R>(rt, alloc, gate, asked)
}

/// The same, from an origin.
fn serve_from<D: Disk + Send, O: Origin + Send + Sync, G: Gate + Sync, R: Threads + Wait + Sync>(
    rt: &R,
    alloc: Global,
    gate: &G,
    asked: ServableScripts<D>,
) -> Served<D>
    requires origin { IsAtOrigin D.at O.state O.left O.right asked.store }
    ensures { Serves D.at O.state O.left O.right asked.scripts.items result }
{
    let ServableScripts { scripts, store } = asked;
    let count = scripts.len() as u8;
    let (service, seats, finders) = match Service::<D, O>::new(rt, alloc, store, count) {
        Ok(made) => made,
        Err(store) => return end_without_service(alloc, store),
    };
    let desk = Publishing::new(&service);
    let (seats, whole) = run_at(rt, alloc, &desk, gate, scripts, seats, finders);
    close_service(rt, service, seats, whole)
}

/// Closes the book with all its seats.
fn close_service<D: Disk, O: Origin, W: Wait>(
    rt: &W,
    service: Service<D, O>,
    seats: Vec<BookSeat<O>>,
    whole: bool,
) -> Served<D>
    requires own { All (IsSeatOf service) seats.items }
    requires all { sessions_of service ≤ length seats.items }
    ensures { Leaves D.at O.state O.left O.right (sessions_of service) whole
        seats.items result }
{
    match service.close(rt, seats) {
        Ok(closed) => end_of_service(closed, whole),
        Err(_) => unreachable!(),
    }
}

/// What is left where there was no memory for a service.
fn end_without_service<D: Disk>(alloc: Global, store: Store<D>) -> Served<D>
    ensures left { result.left ≡ store.left }
    ensures right { result.right ≡ store.right }
    ensures history { result.history ≡ [] }
    ensures end { result.end ≡ End.NoMemory }
    ensures order { IsInOrder D.at store }
{
    let (left, right) = store.close();
    Served {
        left,
        right,
        history: History::new(alloc),
        end: End::NoMemory,
    }
}
