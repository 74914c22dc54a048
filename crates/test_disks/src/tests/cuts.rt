//! A journal of three records, of either version, that is cut at each byte, and one whose bytes are
//! changed.

use crate::tests::checks::{NOWHERE, shows};
use crate::tests::disks::{as_version_1, byte_at, changed};
use crate::tests::found::{Found, of_header};
use crate::tests::journals::{find_in, journal};
use std::alloc::{AllocError, Global};
use std::test::Fail;

// Below so many bytes there is no journal, of neither version.
const LEAST_HEADER: u64 = 57;

const RECORD_BYTES: u64 = 129;

// What is found where the bytes end before a place, behind a header of so many bytes.
fn cut_at(header: u64, at: u64) -> Found {
    if at < LEAST_HEADER {
        Found::Absent
    } else if at < header {
        Found::NoForm {
            index: 0,
            place: at,
        }
    } else {
        Found::Records((at - header) / RECORD_BYTES)
    }
}

// What is found where the last bit of the byte at a place is another, behind a header of so many
// bytes.
fn changed_at(header: u64, at: u64) -> Found {
    if at < header {
        of_header(header, at, 1)
    } else if (at - header) % RECORD_BYTES == 0 {
        // The gate behind the last record opens nothing: no whole record stands there.
        Found::Records((at - header) / RECORD_BYTES)
    } else {
        Found::OtherDigest((at - header) / RECORD_BYTES + 1)
    }
}

// The first place at which a cut leaves something else.
fn first_odd_cut(alloc: Global, bytes: &[u8], header: u64) -> Result<u64, AllocError> {
    for at in 0..bytes.len() as u64 {
        let left = bytes.get(..at as usize).unwrap_or(bytes);
        if find_in(alloc, left)? != cut_at(header, at) {
            return Ok(at);
        }
    }
    Ok(NOWHERE)
}

// What is found where the byte at a place is another.
fn find_changed(alloc: Global, bytes: &[u8], at: u64, byte: u8) -> Result<Found, AllocError> {
    let bytes = changed(alloc, bytes, at, byte)?;
    find_in(alloc, &bytes)
}

// The first place at which a change leaves something else.
fn first_odd_change(alloc: Global, bytes: &[u8], header: u64) -> Result<u64, AllocError> {
    for at in 0..bytes.len() as u64 {
        if find_changed(alloc, bytes, at, byte_at(bytes, at) ^ 1)? != changed_at(header, at) {
            return Ok(at);
        }
    }
    Ok(NOWHERE)
}

// How many bytes there are and how many records are found in them, and the first odd cut, change
// and row.
fn see(
    alloc: Global,
    bytes: &[u8],
    header: u64,
    rows: &[(u64, u8, Found)],
) -> Result<[u64; 5], AllocError> {
    Ok([
        bytes.len() as u64,
        records(find_in(alloc, bytes)?),
        first_odd_cut(alloc, bytes, header)?,
        first_odd_change(alloc, bytes, header)?,
        first_odd_row(alloc, bytes, rows)?,
    ])
}

#[test]
fn a_journal_is_cut_and_changed_at_each_byte(rt: HostRuntime) -> Result<(), Fail> {
    let bytes = journal(rt.alloc(), 3)?;
    let seen = see(rt.alloc(), &bytes, 65, &GATES_AND_FIELDS)?;
    let is_right = seen == [453, 3, NOWHERE, NOWHERE, NOWHERE];
    shows(&rt, "each cut, each change and each row", is_right);
    Ok(())
}

#[test]
fn version_1_is_cut_and_changed_at_each_byte(rt: HostRuntime) -> Result<(), Fail> {
    let bytes = as_version_1(rt.alloc(), &journal(rt.alloc(), 3)?)?;
    let seen = see(rt.alloc(), &bytes, 57, &GATES_OF_VERSION_1)?;
    let is_right = seen == [445, 3, NOWHERE, NOWHERE, NOWHERE];
    shows(
        &rt,
        "each cut, each change and each row of version 1",
        is_right,
    );
    Ok(())
}

// How many records are found, if a journal is.
fn records(found: Found) -> u64 {
    match found {
        Found::Records(count) => count,
        _ => NOWHERE,
    }
}

// A place, the byte there, and what is found: gates; generation 2 on the left disk; a name, a
// length and a limit that are none; and the other version's name, by which the digest is sought
// where it doesn't stand.
const GATES_AND_FIELDS: [(u64, u8, Found); 8] = [
    (323, 0, Found::Records(2)),
    (323, 1, Found::Records(3)),
    (323, 7, Found::Records(2)),
    (8, 2, Found::NoForm { index: 0, place: 1 }),
    (16, 2, Found::NoForm { index: 0, place: 9 }),
    (
        24,
        2,
        Found::NoForm {
            index: 0,
            place: 17,
        },
    ),
    (
        32,
        2,
        Found::NoForm {
            index: 0,
            place: 25,
        },
    ),
    (8, 49, Found::OtherDigest(0)),
];

// Behind the header of version 1; with the other version's name the digest is no limit.
const GATES_OF_VERSION_1: [(u64, u8, Found); 4] = [
    (315, 0, Found::Records(2)),
    (315, 7, Found::Records(2)),
    (8, 2, Found::NoForm { index: 0, place: 1 }),
    (
        8,
        50,
        Found::NoForm {
            index: 0,
            place: 25,
        },
    ),
];

// The place of the first row that finds something else.
fn first_odd_row(
    alloc: Global,
    bytes: &[u8],
    rows: &[(u64, u8, Found)],
) -> Result<u64, AllocError> {
    for (at, byte, found) in rows {
        if find_changed(alloc, bytes, *at, *byte)? != *found {
            return Ok(*at);
        }
    }
    Ok(NOWHERE)
}
