//! A disk that is torn.

use crate::tests::checks::shows;
use crate::tests::disks::disk;
use liq_outside::{Disk, MemoryDisk};
use std::alloc::{AllocError, Global};
use std::test::Fail;

const OLD: [u8; 4] = [1, 2, 3, 4];

const NEW: [u8; 5] = [9, 9, 9, 9, 9];

// Writes the new bytes over the old ones, and syncs them or not; whether both are done.
fn write_over(disk: &mut MemoryDisk, synced: bool) -> bool {
    let written = disk.write_at(0, &NEW).is_ok();
    if synced {
        return written && disk.sync().is_ok();
    }
    written
}

// Whether a crash of this choice leaves the old bytes, and whether the new ones.
fn torn(written: MemoryDisk, choice: u64) -> (bool, bool) {
    let left = written.crash(choice);
    (
        left.bytes() == OLD.as_slice(),
        left.bytes() == NEW.as_slice(),
    )
}

// The same, where the new bytes were written and synced or not.
fn torn_over(mut disk: MemoryDisk, synced: bool, choice: u64) -> (bool, bool) {
    if write_over(&mut disk, synced) {
        torn(disk, choice)
    } else {
        (false, false)
    }
}

// Whether a crash of this choice keeps all only by choice 0, and nothing by choice 1; and keeps
// what is synced.
fn tears(alloc: Global, choice: u64) -> Result<bool, AllocError> {
    let (is_old, is_new) = torn_over(disk(alloc, &OLD, &[])?, false, choice);
    let (_, is_kept) = torn_over(disk(alloc, &OLD, &[])?, true, choice);
    Ok(is_kept && is_new == (choice == 0) && (is_old || choice != 1))
}

#[test]
fn a_crash_loses_what_is_not_synced(rt: HostRuntime) -> Result<(), Fail> {
    for choice in 0..8 {
        let is_right = tears(rt.alloc(), choice)?;
        shows(&rt, "what a crash leaves", is_right);
    }
    Ok(())
}
