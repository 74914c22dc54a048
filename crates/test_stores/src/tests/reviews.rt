//! Reviews that stop, and as many offsets as one may have.

use crate::tests::checks::shows;
use crate::tests::commands::{commands_of, numbered};
use liq_text_audit::{ReviewFault, review};
use liq_types::amounts::LIM;
use std::alloc::{AllocError, Global};
use std::test::Fail;

/// What a row shows, its lines, and the number and the code with which their replay stops.
type StoppedRow = (&'static str, &'static str, u64, u8);

const STOPPED: [StoppedRow; 4] = [
    ("the first is out of turn", "1 2 fund 1 5\n", 1, 70),
    (
        "one comes again",
        "1 1 fund 1 5\n1 2 fund 1 6\n1 2 fund 1 6\n1 3 fund 1 7\n",
        3,
        0,
    ),
    (
        "one is refused by its verb",
        "1 1 fund 1 5\n1 2 take 1 6\n",
        2,
        14,
    ),
    (
        "one plans a list and is refused",
        "1 1 fund 1 5\n2 1 liquidate_lowest 1 0\n",
        2,
        11,
    ),
];

// Whether the review of these lines' commands stops so.
fn stops(alloc: Global, lines: &str, index: u64, code: u8) -> Result<bool, Fail> {
    let commands = commands_of(alloc, lines)?;
    Ok(match review(alloc, LIM, &commands) {
        Err(
            ReviewFault::Refused {
                index: at,
                code: by,
            },
        ) => at == index && by == code,
        _ => false,
    })
}

#[test]
fn refused(rt: HostRuntime) -> Result<(), Fail> {
    for (what, lines, index, code) in &STOPPED {
        let stopped = stops(rt.alloc(), lines, *index, *code)?;
        shows(&rt, what, stopped);
    }
    Ok(())
}

/// One depositor, and so many troves that are offset against it, of 2.3 ether and 2,009 LUSD each.
fn offsets(alloc: Global, count: u32) -> Result<String, AllocError> {
    let mut calls = String::from_str(
        alloc,
        "fund 1 100000000000000000\n\
         open 1 100000000000000000 30000000000000 1000000000000000000 - -\n\
         provide 1 30000000000000\n",
    )?;
    for i in 0..count {
        put_trove(&mut calls, 100 + i % 64)?;
        if i % 64 == 63 || i + 1 == count {
            calls.push_str("price 900000000\nliquidate_lowest 2 64\nprice 1000000000\n")?;
        }
    }
    Ok(calls)
}

fn put_trove(calls: &mut String, account: u32) -> Result<(), AllocError> {
    writeln!(
        calls,
        "fund {account} 2300000000\nopen {account} 2300000000 1800000000 1000000000000000000 - -"
    )
}

const REVIEWED: &str = "\
    1 9910000000000 9910000000000 9909999999999 300000001 \
        22885000000000 22885000000000 22884999999999 3600000015\n\
    within 1 of 1\n";

// Whether so many offsets are reviewed as this text, and whether there is no review, since they are
// more than there may be.
fn offsets_reviewed(alloc: Global, count: u32) -> Result<(bool, bool), Fail> {
    let lines = numbered(alloc, &offsets(alloc, count)?)?;
    let commands = commands_of(alloc, &lines)?;
    Ok(match review(alloc, LIM, &commands) {
        Ok(text) => (text.as_slice() == REVIEWED.as_bytes(), false),
        Err(ReviewFault::Limit { number }) => (false, number == u128::from(count)),
        Err(_) => (false, false),
    })
}

#[test]
fn counted_offsets(rt: HostRuntime) -> Result<(), Fail> {
    let (most, _) = offsets_reviewed(rt.alloc(), 10_000)?;
    shows(&rt, "as many offsets as there may be", most);
    let (_, more) = offsets_reviewed(rt.alloc(), 10_001)?;
    shows(&rt, "one offset more", more);
    Ok(())
}
