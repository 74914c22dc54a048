//! Histories, and what is written of them.

ghost use Rattle.std.specs.Prelude.{◌≡◌, ◌<◌, []};

use crate::tests::checks::{NOWHERE, same, shows};
use crate::tests::drip::Drip;
use liq_text_scripts::{Outbox, ShownEntry, write_served};
use liq_types::{Done, Entry, Info, Query, Refusal, Reply, Request};
use std::alloc::{AllocError, Global};
use std::test::Fail;

/// What each entry asked: it is not shown.
const ASKED: Request = Request::Ask(Query::Pools);

const NO_TROVE: Reply = Reply::No(Refusal::NoTrove {
    account: 4_294_967_295,
});

const FUNDED: Reply = Reply::Said(Done {
    kind: 3,
    values: [0; 6],
});

const MIXED: [Entry; 6] = [
    Entry {
        session: 7,
        index: 1,
        request: ASKED,
        reply: FUNDED,
    },
    Entry {
        session: 2,
        index: 1,
        request: ASKED,
        reply: NO_TROVE,
    },
    Entry {
        session: 7,
        index: 2,
        request: ASKED,
        reply: Reply::Told(Info::NoDeposit),
    },
    Entry {
        session: 8,
        index: 1,
        request: ASKED,
        reply: FUNDED,
    },
    Entry {
        session: 2,
        index: 2,
        request: ASKED,
        reply: FUNDED,
    },
    Entry {
        session: 7,
        index: 3,
        request: ASKED,
        reply: Reply::Told(Info::Next {
            number: 18_446_744_073_709_551_615,
        }),
    },
];

const MIXED_OUTPUT: &[u8] = b"\
    session 2\nno 21 4294967295\nok\n\
    session 7\nok\nnone\n18446744073709551615\n\
    session 8\nok\n\
    history\n7 1\n2 1\n7 2\n8 1\n2 2\n7 3\n";

// Whether a sink that takes so many bytes in a call, and fails in the call of this number, holds
// this text then. All is written where no call fails, and then alone.
fn is_written<E: ShownEntry>(
    alloc: Global,
    entries: &[E],
    most: usize,
    failing: usize,
    text: &[u8],
) -> Result<bool, AllocError>
    requires { 0 < most }
{
    let mut sink = Drip::new(alloc, most, failing);
    let mut outbox = Outbox::new(alloc)?;
    let is_whole = write_served(entries, &mut outbox, &mut sink).is_ok();
    Ok(is_whole == (failing == NONE) && sink.bytes() == text)
}

/// No call has this number.
const NONE: usize = usize::MAX;

// The first call at which a sink of one byte holds something else, where that call fails.
fn first_odd_call(alloc: Global) -> Result<u64, AllocError> {
    for call in 0..MIXED_OUTPUT.len() {
        let text = MIXED_OUTPUT.get(..call).unwrap_or(b"");
        if !is_written(alloc, &MIXED, 1, call, text)? {
            return Ok(call as u64);
        }
    }
    Ok(NOWHERE)
}

#[test]
fn served(rt: HostRuntime) -> Result<(), Fail> {
    let alloc = rt.alloc();
    let entries: [Entry; 0] = [];
    let nothing = is_written(alloc, &entries, 1, NONE, b"history\n")?;
    shows(&rt, "a history of nothing", nothing);
    let by_bytes = is_written(alloc, &MIXED, 1, NONE, MIXED_OUTPUT)?;
    shows(&rt, "a mixed history, byte by byte", by_bytes);
    let at_once = is_written(alloc, &MIXED, 4_096, NONE, MIXED_OUTPUT)?;
    shows(&rt, "a mixed history, at once", at_once);
    let call = first_odd_call(alloc)?;
    same(&rt, call, NOWHERE, "a call that fails");
    Ok(())
}
