//! Stores whose disks fail.

use crate::tests::checks::shows;
use crate::tests::runs::{CALLS, disk, run};
use liq_outside::{Disk, MemoryDisk};
use liq_store::{Store, StoreWhy};
use liq_types::{Answer, Done, Reply};
use std::alloc::{AllocError, Global};
use std::test::Fail;

const SAID: Option<Answer> = Some(Answer::Reply(Reply::Said(Done {
    kind: 3,
    values: [0; 6],
})));

// What a run tells: its answers; the faults at which it stopped, or 0, and those of each disk.
#[derive(Clone, Copy)]
struct Told {
    answers: [Option<Answer>; 6],
    counts: [u64; 3],
}

// A run whose left disk fails at this device call.
fn run_failing(alloc: Global, failing: u64) -> Result<Told, AllocError> {
    let made = run(alloc, &[failing], CALLS)?;
    Ok(Told {
        answers: made.answers,
        counts: [
            made.stopped.unwrap_or(0),
            made.left.faults(),
            made.right.faults(),
        ],
    })
}

// An opening of two empty disks makes eleven device calls on the left one, and each accepted
// command four, of which the last is its second sync.
#[test]
fn the_second_sync_of_the_fifth_call_fails(rt: HostRuntime) -> Result<(), Fail> {
    let answers = [
        SAID,
        SAID,
        SAID,
        SAID,
        Some(Answer::DiskFault),
        Some(Answer::Stopped { faults: 1 }),
    ];
    let told = run_failing(rt.alloc(), 30)?;
    shows(
        &rt,
        "four accepted, one met the fault, one is stopped",
        told.answers == answers,
    );
    let is_counted = told.counts == [1, 1, 0];
    shows(&rt, "one fault, of the left disk", is_counted);
    Ok(())
}

// Whether an opening of these disks tells a fault of a disk, and the faults of both then.
fn open_failing(alloc: Global, left: MemoryDisk, right: MemoryDisk) -> (bool, u64, u64) {
    match Store::open(alloc, left, right) {
        Ok(_) => (false, 0, 0),
        Err(fault) => (
            matches!(fault.why, StoreWhy::DiskFault),
            fault.left.faults(),
            fault.right.faults(),
        ),
    }
}

// The same where the left disk has these bytes and the right one fails.
fn open_beside_fault(alloc: Global, bytes: &[u8]) -> Result<(bool, u64, u64), AllocError> {
    let right = disk(alloc, &[], &[0])?;
    Ok(open_failing(alloc, disk(alloc, bytes, &[])?, right))
}

#[test]
fn the_right_disk_fails(rt: HostRuntime) -> Result<(), Fail> {
    // The right disk is synced although the left one is damaged, and its fault is told.
    for bytes in [[].as_slice(), [1; 57].as_slice()] {
        let told = open_beside_fault(rt.alloc(), bytes)?;
        let is_told = told == (true, 0, 1);
        shows(&rt, "the right disk's fault is told", is_told);
    }
    Ok(())
}
