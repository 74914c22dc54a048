//! Looks at a disk, and bodies of records read back.

use crate::tests::checks::{NOWHERE, same, shows};
use crate::tests::disks::{TWO_RECORDS, byte_at, changed, disk, no_bytes};
use crate::tests::files::{file, make_two_in};
use crate::tests::found::{Found, of_header, of_look};
use crate::tests::journals::fund;
use liq_journal::{Journal, Look, look};
use liq_outside::{Disk, FileDisk, MemoryDisk};
use liq_types::{Call, Command};
use liq_wire::encode;
use std::alloc::{AllocError, Global};
use std::fs::{File, Files};
use std::io;
use std::test::Fail;

// What a look finds. Of a journal it tells the generation alone: 1 is told as no records.
fn seen_by_a_look(mut disk: MemoryDisk, odd: bool) -> Found {
    match look(&mut disk, odd) {
        Ok(Look::Absent) => Found::Absent,
        Ok(Look::Open { generation }) => Found::Records(generation.wrapping_sub(1)),
        Err(fault) => of_look(&fault),
    }
}

// What a look at these bytes finds, where the device call of this number fails.
fn look_at(alloc: Global, bytes: &[u8], odd: bool, failing: u64) -> Result<Found, AllocError> {
    Ok(seen_by_a_look(disk(alloc, bytes, &[failing])?, odd))
}

const OPEN: Found = Found::Records(0);

// How many of the bytes there are, and what is found: a header of version 1 has 57, and one of
// version 2 has 65.
const LENGTHS: [(u64, Found); 7] = [
    (324, OPEN),
    (0, Found::Absent),
    (1, Found::Absent),
    (56, Found::Absent),
    (
        57,
        Found::NoForm {
            index: 0,
            place: 57,
        },
    ),
    (
        64,
        Found::NoForm {
            index: 0,
            place: 64,
        },
    ),
    (65, OPEN),
];

#[test]
fn a_look_tells_the_header(rt: HostRuntime) -> Result<(), Fail> {
    for (length, expected) in LENGTHS {
        let bytes = TWO_RECORDS.get(..length as usize).unwrap_or(&[]);
        let found = look_at(rt.alloc(), bytes, true, NOWHERE)?;
        shows(&rt, "a look at so many bytes", found == expected);
    }
    Ok(())
}

// A look reads the header and the length: there is no third call.
#[test]
fn a_look_makes_two_device_calls(rt: HostRuntime) -> Result<(), Fail> {
    let alloc = rt.alloc();
    let found = [
        look_at(alloc, TWO_RECORDS, true, 0)?,
        look_at(alloc, TWO_RECORDS, true, 1)?,
        look_at(alloc, TWO_RECORDS, true, 2)?,
        look_at(alloc, TWO_RECORDS, false, NOWHERE)?,
    ];
    // The last one is on the other disk.
    let expected = [
        Found::DiskFault,
        Found::DiskFault,
        OPEN,
        Found::NoForm { index: 0, place: 9 },
    ];
    shows(&rt, "looks where a call fails", found == expected);
    Ok(())
}

// What a look finds where a bit of the byte at a place is another.
fn look_at_change(alloc: Global, at: u64) -> Result<Found, AllocError> {
    let bytes = changed(alloc, TWO_RECORDS, at, byte_at(TWO_RECORDS, at) ^ 4)?;
    look_at(alloc, &bytes, true, NOWHERE)
}

// The first place at which a change is told as something else.
fn first_odd_look(alloc: Global) -> Result<u64, AllocError> {
    for at in 0..TWO_RECORDS.len() as u64 {
        let expected = if at < 65 { of_header(65, at, 4) } else { OPEN };
        if look_at_change(alloc, at)? != expected {
            return Ok(at);
        }
    }
    Ok(NOWHERE)
}

#[test]
fn a_look_at_changed_bytes(rt: HostRuntime) -> Result<(), Fail> {
    let place = first_odd_look(rt.alloc())?;
    same(&rt, place, NOWHERE, "a look at a changed byte");
    Ok(())
}

// What comes of reading the body of a record: its own number where it has these bytes, and 0 where
// it has others.
fn read_body<D: Disk>(journal: &mut Journal<D>, index: u64, bytes: &[u8]) -> Found {
    if index < 1 || index > journal.records() {
        return Found::Absent;
    }
    match journal.body(index) {
        Ok(body) if body.as_slice() == bytes => Found::Records(index),
        Ok(_) => Found::Records(0),
        Err(fault) => of_look(&fault),
    }
}

// What was found in turn, and the disk's faults.
#[derive(Clone, Copy)]
struct Seen {
    found: [Found; 4],
    faults: u64,
}

// Nothing is seen where there is no journal.
const NOTHING: Seen = Seen {
    found: [Found::NoMemory; 4],
    faults: NOWHERE,
};

// The journal on a disk, if there is one.
fn journal_on<D: Disk + Drop>(alloc: Global, disk: D) -> Option<Journal<D>> {
    match Journal::open(alloc, disk, true) {
        Ok((journal, _)) => Some(journal),
        Err(_) => None,
    }
}

fn bodies_of_two(journal: &mut Journal<MemoryDisk>) -> Seen {
    let one = TWO_RECORDS.get(66..162).unwrap_or(&[]);
    let two = TWO_RECORDS.get(195..291).unwrap_or(&[]);
    let found = [
        read_body(journal, 1, one),
        read_body(journal, 1, one),
        read_body(journal, 2, two),
        read_body(journal, 3, two),
    ];
    Seen {
        found,
        faults: journal.faults(),
    }
}

fn see_bodies(alloc: Global, disk: MemoryDisk) -> Seen {
    match journal_on(alloc, disk) {
        Some(mut journal) => bodies_of_two(&mut journal),
        None => NOTHING,
    }
}

// An opening makes six device calls where two records stand: a sync, the header, the length, both
// records at once, what stands behind them, and the gate. A body is one more. Here the seventh call
// fails.
#[test]
fn bodies_are_read_back(rt: HostRuntime) -> Result<(), Fail> {
    let seen = see_bodies(rt.alloc(), disk(rt.alloc(), TWO_RECORDS, &[6])?);
    let expected = [
        Found::DiskFault,
        Found::Records(1),
        Found::Records(2),
        Found::Absent,
    ];
    let is_right = (seen.found, seen.faults) == (expected, 1);
    shows(&rt, "bodies, and the faults at them", is_right);
    Ok(())
}

// What is found in place of the body of a new journal's only record, which has these bytes.
fn find_body(disk: MemoryDisk, bytes: &[u8; 96]) -> Found {
    match Journal::create(disk, 1, &[]) {
        Ok(mut journal) => match journal.append(bytes) {
            Ok(()) => read_body(&mut journal, 1, bytes),
            Err(_) => Found::DiskFault,
        },
        Err(_) => Found::DiskFault,
    }
}

// Whether a field of the body fits nothing, at this place of the disk.
fn is_refused(alloc: Global, bytes: &[u8; 96], place: u64) -> bool {
    find_body(no_bytes(alloc), bytes) == Found::NoForm { index: 1, place }
}

fn rotation() -> [u8; 96] {
    encode(&Command {
        client: 1,
        number: 1,
        call: Call::Rotate,
    })
}

fn fund_of_no_account() -> [u8; 96] {
    let mut bytes = encode(&fund(1));
    bytes[23] = 1;
    bytes
}

#[test]
fn a_body_that_is_no_command(rt: HostRuntime) {
    let alloc = rt.alloc();
    // Nothing, a rotation, and an account that is none.
    let refused = [
        is_refused(alloc, &[0; 96], 66),
        is_refused(alloc, &rotation(), 66),
        is_refused(alloc, &fund_of_no_account(), 86),
    ];
    shows(&rt, "each is refused", refused == [true; 3]);
}

// What comes of reading a body once the file has another byte at a place, which is written from
// outside.
fn read_behind(
    journal: &mut Journal<FileDisk>,
    other: &mut FileDisk,
    at: u16,
    byte: u8,
    index: u64,
) -> Found {
    match other.write_at(u64::from(at), &[byte]) {
        Ok(()) => read_body(journal, index, &encode(&fund(index))),
        Err(_) => Found::NoMemory,
    }
}

// The bodies of two records, while the file is changed from outside: the first one's number, a gate
// that was shut since, which takes nothing back, and the last byte of the second one's digest.
fn bodies_behind_changes(journal: &mut Journal<FileDisk>, other: &mut FileDisk) -> Seen {
    let found = [
        read_body(journal, 1, &encode(&fund(1))),
        read_behind(journal, other, 108, 9, 1),
        read_behind(journal, other, 194, 0, 2),
        read_behind(journal, other, 322, 9, 2),
    ];
    Seen {
        found,
        faults: journal.faults(),
    }
}

fn see_changes(alloc: Global, disk: FileDisk, mut other: FileDisk) -> Seen {
    match journal_on(alloc, disk) {
        Some(mut journal) => bodies_behind_changes(&mut journal, &mut other),
        None => NOTHING,
    }
}

// What is seen of the file of this name.
fn see_changes_of<F>(files: &F, alloc: Global, name: &str) -> io::Result<Seen>
where
    F: Files<File = File>,
{
    let other = file(files, name)?;
    Ok(see_changes(alloc, file(files, name)?, other))
}

#[test]
fn bodies_of_a_file_that_was_changed(rt: HostRuntime) -> Result<(), Fail> {
    let made = make_two_in(&rt, rt.alloc(), "bodies.liq")?;
    let Seen { found, faults } = see_changes_of(&rt, rt.alloc(), "bodies.liq")?;
    let expected = [
        Found::Records(1),
        Found::OtherDigest(1),
        Found::Records(2),
        Found::OtherDigest(2),
    ];
    let is_right = made && (found, faults) == (expected, 0);
    shows(&rt, "bodies that change, and no fault", is_right);
    Ok(())
}
