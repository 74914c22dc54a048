//! What no file asks for: sessions that are held back, so that it shows whether they are served at
//! once; one whose calls show what is published behind each; sources that go on behind their end;
//! and words that the system does not give.

use crate::devices::{Devices, through};
use crate::endings::check_endings;
use crate::waiting::{Holds, Versions, Waiting};
use liq_case_files::{Report, put_words};
use liq_outside::MemorySink;
use liq_serve::without_words;
use liq_sessions::Gate;
use std::alloc::{AllocError, Global};
use std::io::ErrorKind;
use std::sync::Wait;
use std::sync::atomic::Ordering;
use std::thread::Threads;

const TWO: &[u8] = b"1 ? pools\n2 ? system\n";

const EIGHT: &[u8] =
    b"1 ? pools\n2 ? pools\n3 ? pools\n4 ? pools\n5 ? pools\n6 ? pools\n7 ? pools\n8 ? pools\n";

/// Lines of sessions, and whose first calls are held back: by those of others, which so do not wait
/// for the end of theirs.
const HELD: [(&[u8], Holds); 3] = [
    (
        TWO,
        Holds::Until {
            held: 1,
            other: 2,
            index: 1,
        },
    ),
    (
        TWO,
        Holds::Until {
            held: 2,
            other: 1,
            index: 1,
        },
    ),
    (EIGHT, Holds::All(8)),
];

/// Each session funds a wallet, and then opens a trove.
const TROVES: &[u8] = b"1 1 1 fund 1 10000000000\n\
    1 1 2 open 1 10000000000 4000000000 1000000000000000000 - -\n\
    2 2 1 fund 2 10000000000\n\
    2 2 2 open 2 10000000000 4000000000 1000000000000000000 - -\n";

/// The second session comes behind the first.
const BEHIND: Holds = Holds::Until {
    held: 2,
    other: 1,
    index: 2,
};

/// The versions by which the calls of both are hinted: session 1 sees the list as it was opened,
/// and session 2 the one behind the first trove, which is the second entry.
const VERSIONS: [u64; 4] = [0, 0, 2, 2];

/// Calls of one session, and the version of the list by which each is hinted: the number of the
/// last call in front of it whose reply changed the list. Each of the seven kinds of such replies
/// comes, each kind that changes none, and a refused opening and a query. A command is accepted
/// only where the one numbered before it was, so the last line shows that all of them were.
const PUBLISHED: [(&[u8], u64); 28] = [
    (b"1 1 1 fund 1 40000000000\n", 0),
    (b"1 1 2 fund 2 100000000000\n", 0),
    (
        b"1 1 3 open 1 10000000000 4000000000 1000000000000000000 - -\n",
        0,
    ),
    (
        b"1 1 4 open 2 80000000000 10000000000 1000000000000000000 - -\n",
        3,
    ),
    (
        b"1 1 5 open 1 10000000000 4000000000 1000000000000000000 - -\n",
        4,
    ),
    (b"1 1 5 send 2 1 100000000\n", 4),
    (b"1 1 6 close 1\n", 4),
    (b"1 1 7 take 1 1000000000\n", 7),
    (
        b"1 1 8 open 1 10000000000 4000000000 1000000000000000000 - -\n",
        7,
    ),
    (b"1 1 9 adjust 2 1000000000 0 0 0 0 - -\n", 9),
    (b"1 1 10 provide 2 5000000000\n", 10),
    (b"1 1 11 price 460000000\n", 10),
    (b"1 1 12 liquidate 9 1\n", 10),
    (b"1 ? trove 1\n", 13),
    (b"1 1 13 gain_to_trove 2 - -\n", 13),
    (b"1 1 14 withdraw 2 1000000\n", 15),
    (b"1 1 15 price 1000000000\n", 15),
    (
        b"1 1 16 open 1 10000000000 4000000000 1000000000000000000 - -\n",
        15,
    ),
    (b"1 1 17 price 460000000\n", 18),
    (b"1 1 18 liquidate_lowest 9 1\n", 18),
    (b"1 1 19 price 1000000000\n", 20),
    (
        b"1 1 20 open 1 3000000000 2000000000 1000000000000000000 - -\n",
        20,
    ),
    (b"1 1 21 advance 20160\n", 22),
    (b"1 1 22 redeem 2 2010000000 1000000000000000000 - -\n", 22),
    (b"1 1 23 claim 1\n", 24),
    (b"1 1 24 rotate\n", 24),
    (b"1 1 25 adjust 2 1000000000 0 0 0 0 - -\n", 24),
    (b"1 ? system\n", 27),
];

/// Why the words are not given, the line that says so, and the status.
const UNGIVEN: [(ErrorKind, &[u8], u64); 2] = [
    (ErrorKind::OutOfMemory, b"no memory\n", 7),
    (
        ErrorKind::InvalidData,
        b"usage: liq run, serve, state, audit or gen SEED COUNT\n",
        1,
    ),
];

/// Makes these runs, and tells how many there are and what differs.
pub fn tell_beside<R: Threads + Wait + Sync>(rt: &R, alloc: Global) -> Result<String, AllocError> {
    let mut told = Report::new(alloc, String::from_str(alloc, "beside the files")?);
    for (lines, holds) in &HELD {
        let gate = Waiting::new(*holds);
        serve(rt, alloc, &mut told, lines, &gate)?;
        check_missed(&mut told, &gate);
    }
    let gate = Waiting::new(BEHIND);
    serve(rt, alloc, &mut told, TROVES, &gate)?;
    check_missed(&mut told, &gate);
    check_hints(&mut told, &gate);
    check_published(rt, alloc, &mut told)?;
    check_endings(rt, alloc, &mut told)?;
    for (fault, line, status) in &UNGIVEN {
        check_ungiven(alloc, &mut told, *fault, line, *status)?;
    }
    told.end()
}

/// Serves the lines through a gate.
fn serve<R: Threads + Wait + Sync, G: Gate + Sync>(
    rt: &R,
    alloc: Global,
    told: &mut Report,
    lines: &[u8],
    gate: &G,
) -> Result<(), AllocError> {
    let mut words = Vec::new(alloc);
    put_words(alloc, &mut words, &["serve"])?;
    let outcome = through(rt, alloc, gate, &Devices::new(&words, lines))?;
    told.runs = told.runs.saturating_add(1);
    fact(told, "status", 0, outcome.status());
    Ok(())
}

/// A fact that is told where it does not hold.
fn fact(told: &mut Report, what: &str, wanted: u64, came: u64) {
    told.facts = told.facts.saturating_add(1);
    told.number(what, wanted, came);
}

/// No call was let through that waited for nothing.
fn check_missed(told: &mut Report, gate: &Waiting) {
    fact(told, "waited for nothing", 0, gate.missed());
}

/// The calls were hinted by these versions, and the last one behind account 1.
fn check_hints(told: &mut Report, gate: &Waiting) {
    let [one, two] = &gate.first;
    let [three, four] = &gate.second;
    for (hinted, version) in [one, two, three, four].iter().zip(&VERSIONS) {
        fact(
            told,
            "version of the list",
            *version,
            hinted.version.load(Ordering::SeqCst),
        );
    }
    fact(
        told,
        "account before, and 1",
        2,
        four.prev.load(Ordering::SeqCst),
    );
    fact(
        told,
        "account behind, and 1",
        0,
        four.next.load(Ordering::SeqCst),
    );
}

/// Each call of one session is hinted by what was published last behind those in front of it.
fn check_published<R: Threads + Wait + Sync>(
    rt: &R,
    alloc: Global,
    told: &mut Report,
) -> Result<(), AllocError> {
    let mut lines = Vec::new(alloc);
    for (line, _) in &PUBLISHED {
        lines.extend_from_slice(line)?;
    }
    let gate = Versions::new(alloc, PUBLISHED.len())?;
    serve(rt, alloc, told, &lines, &gate)?;
    for (hinted, (_, version)) in gate.hinted().iter().zip(&PUBLISHED) {
        fact(
            told,
            "version behind a call",
            *version,
            hinted.load(Ordering::SeqCst),
        );
    }
    Ok(())
}

/// The line that says why words are not given is written, or is lost where it cannot be.
fn check_ungiven(
    alloc: Global,
    told: &mut Report,
    fault: ErrorKind,
    line: &[u8],
    status: u64,
) -> Result<(), AllocError> {
    for (failing, written) in [(u64::MAX, line), (0, b"")] {
        let mut sink = MemorySink::new(alloc, [failing].to_vec(alloc)?);
        let came = without_words(fault, &mut sink);
        told.runs = told.runs.saturating_add(1);
        fact(told, "status without words", status, u64::from(came));
        told.facts = told.facts.saturating_add(1);
        told.bytes("output without words", written, sink.bytes());
    }
    Ok(())
}
