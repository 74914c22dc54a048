//! Sessions run at their seats, and all seats come back.

ghost use Rattle.std.specs.Prelude.{◌≡◌, ◌≤◌, ◌↔◌, All, [], map, IsTrue, length, vec_capacity};
ghost use Rattle.std.specs.List.{AllByRecursion};
ghost use Rattle.liq_sessions.specs.declared.done.SessionEnd.TheVariants.{All as Whole};
ghost use Rattle.liq_sessions.specs.declared.script.TheConstants.{REQUESTS_MOST};
ghost use Rattle.liq_word_serve.specs.Running.{ComesTo};

use liq_sessions::{Gate, Script, SessionDone, SessionEnd, Work, run_sessions};
use liq_types::{Desk, Hinter};
use std::alloc::Global;
use std::sync::Wait;
use std::thread::Threads;

/// Runs the scripts at a desk, each with the seat and the hinter at its place. All seats come back,
/// and whether each script got replies to all its requests. Where there is no memory none is begun.
pub(crate) fn run_at<
    K: Desk + Sync,
    H: Hinter + Drop + Send,
    G: Gate + Sync,
    R: Threads + Wait + Sync,
>(
    rt: &R,
    alloc: Global,
    desk: &K,
    gate: &G,
    scripts: Vec<Script>,
    seats: Vec<K::Seat>,
    hinters: Vec<H>,
) -> (Vec<K::Seat>, bool)
where
    K::Seat: Drop + Send,
    requires many { length seats.items ≡ length scripts.items }
    requires as_many { length hinters.items ≡ length scripts.items }
    requires belong { All (K.belongs desk.now) seats.items }
    requires short { All (λ script. length script.requests ≤ REQUESTS_MOST) scripts.items }
    ensures { ComesTo K H (K.belongs desk.now) K.number K.own K.knows_end K.faulted
        scripts.items seats.items result.0.items result.1 }
{
    let count = scripts.len();
    let Ok(room) = Vec::with_capacity(alloc, count) else {
        return (seats, false);
    };
    let Ok(back) = Vec::with_capacity(alloc, count) else {
        return (seats, false);
    };
    let works = at_seats(scripts, seats, hinters, room);
    match run_sessions(rt, alloc, desk, gate, works) {
        Ok(done) => seats_back(done, back),
        Err(works) => (seats_of(works, back), false),
    }
}

/// Each script with the seat and the hinter at its place.
fn at_seats<K: Desk, H: Drop>(
    mut scripts: Vec<Script>,
    mut seats: Vec<K::Seat>,
    mut hinters: Vec<H>,
    room: Vec<Work<K, H>>,
) -> Vec<Work<K, H>>
where
    K::Seat: Drop,
    requires many { length seats.items ≡ length scripts.items }
    requires as_many { length hinters.items ≡ length scripts.items }
    requires none { room.items ≡ [] }
    requires room { length scripts.items ≤ vec_capacity room }
    ensures scripts { map (λ w. w.script) result.items ≡ scripts.items }
    ensures seats { map (λ w. w.seat) result.items ≡ seats.items }
    ensures hinters { map (λ w. w.hinter) result.items ≡ hinters.items }
    ensures room { vec_capacity result ≡ vec_capacity room }
{
    let Some(script) = scripts.pop() else {
        return room;
    };
    let Some(seat) = seats.pop() else {
        unreachable!();
    };
    let Some(hinter) = hinters.pop() else {
        unreachable!();
    };
    let mut works = at_seats(scripts, seats, hinters, room);
    works.push_reserved(Work {
        script,
        seat,
        hinter,
    });
    works
}

/// The seats of works that were not begun.
fn seats_of<K: Desk, H: Drop>(mut works: Vec<Work<K, H>>, room: Vec<K::Seat>) -> Vec<K::Seat>
where
    K::Seat: Drop,
    requires none { room.items ≡ [] }
    requires room { length works.items ≤ vec_capacity room }
    ensures seats { result.items ≡ map (λ w. w.seat) works.items }
    ensures room { vec_capacity result ≡ vec_capacity room }
{
    let Some(last) = works.pop() else {
        return room;
    };
    let mut seats = seats_of(works, room);
    seats.push_reserved(last.seat);
    seats
}

/// The seats of sessions that have ended, and whether each got replies to its whole script.
fn seats_back<K: Desk, H: Drop>(
    mut done: Vec<SessionDone<K, H>>,
    room: Vec<K::Seat>,
) -> (Vec<K::Seat>, bool)
where
    K::Seat: Drop,
    requires none { room.items ≡ [] }
    requires room { length done.items ≤ vec_capacity room }
    ensures seats { result.0.items ≡ map (λ d. d.seat) done.items }
    ensures whole { IsTrue result.1 ↔ AllByRecursion (λ d. d.end ≡ Whole) done.items }
    ensures room { vec_capacity result.0 ≡ vec_capacity room }
{
    let Some(last) = done.pop() else {
        return (room, true);
    };
    let is_whole = got_all(&last.end);
    let (mut seats, others) = seats_back(done, room);
    seats.push_reserved(last.seat);
    (seats, others && is_whole)
}

/// Whether a session that ended so got replies to its whole script.
fn got_all(end: &SessionEnd) -> bool
    ensures { IsTrue result ↔ (end.now ≡ Whole) }
{
    matches!(end, SessionEnd::All)
}
