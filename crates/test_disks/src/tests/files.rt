//! A journal in a real file, and disks over devices: in memory, and the system's.

use crate::tests::checks::{NOWHERE, shows};
use crate::tests::disks::TWO_RECORDS;
use crate::tests::found::Found;
use crate::tests::journals::{Opened, append, create, fund, open};
use liq_outside::{DeviceDisk, Disk, FileDisk, MemoryDevice};
use std::alloc::{AllocError, Global};
use std::fs::{self, File, Files};
use std::io;
use std::test::Fail;

/// A file of this name, empty where it is new.
pub fn file<F: Files<File = File>>(files: &F, name: &str) -> io::Result<FileDisk> {
    let file = File::options()
        .read(true)
        .write(true)
        .create(true)
        .open(files, name)?;
    Ok(FileDisk::new(Some(file)))
}

// Makes a journal of two records on the disk; whether each call succeeded.
fn make_two(alloc: Global, disk: FileDisk) -> bool {
    let created = create(disk);
    let first = append(alloc, created.disk, &fund(1));
    let second = append(alloc, first.disk, &fund(2));
    created.made && first.made && second.made
}

/// Makes a journal of two records in a new file of this name; whether each call succeeded.
pub fn make_two_in<F>(files: &F, alloc: Global, name: &str) -> io::Result<bool>
where
    F: Files<File = File>,
{
    let _ = fs::remove_file(files, name);
    Ok(make_two(alloc, file(files, name)?))
}

// How many bytes a disk reads, where they are the first of these: else none.
fn reads<D: Disk>(disk: &mut D, expected: &[u8]) -> u64 {
    let mut bytes = [0; 400];
    match disk.read_at(0, &mut bytes) {
        Ok(count) if begins(expected, bytes.as_slice(), count) => count as u64,
        _ => NOWHERE,
    }
}

// Whether the first so many bytes of both are the same.
fn begins(expected: &[u8], bytes: &[u8], count: usize) -> bool {
    match (expected.get(..count), bytes.get(..count)) {
        (Some(expected), Some(bytes)) => expected == bytes,
        _ => false,
    }
}

// What is read of a disk: what its journal is; and the disk's length, how many bytes of two
// records, and its faults.
#[derive(Clone, Copy)]
struct Read {
    found: Found,
    numbers: [u64; 3],
}

// Opens the journal, and reads the disk.
fn read_whole(alloc: Global, disk: FileDisk) -> Read {
    let Opened { mut disk, found } = open(alloc, disk);
    let length = disk.length().unwrap_or(0);
    let read = reads(&mut disk, TWO_RECORDS);
    Read {
        found,
        numbers: [length, read, disk.faults()],
    }
}

#[test]
fn two_records_in_a_file(rt: HostRuntime) -> Result<(), Fail> {
    let made = make_two_in(&rt, rt.alloc(), "journal.liq")?;
    let read = read_whole(rt.alloc(), file(&rt, "journal.liq")?);
    let is_right = made && (read.found, read.numbers) == (Found::Records(2), [324, 324, 0]);
    shows(&rt, "two records, all their bytes and no fault", is_right);
    Ok(())
}

// Whether a look at the length, a read, a write and a sync fail.
fn fail(disk: &mut FileDisk) -> [bool; 4] {
    [
        disk.length().is_err(),
        disk.read_at(0, &mut [0; 4]).is_err(),
        disk.write_at(0, &[1]).is_err(),
        disk.sync().is_err(),
    ]
}

#[test]
fn no_file_fails_at_every_call(rt: HostRuntime) {
    let mut none = FileDisk::new(None);
    let failed = fail(&mut none);
    let is_told = failed == [true; 4] && none.faults() == 4;
    shows(&rt, "each call fails without a file", is_told);
}

// What is seen of a disk over a device: whether the word is written and synced, how many bytes of
// it are read, and the faults.
type Tried = (bool, bool, u64, u64);

const WORD: &[u8] = b"liquidation";

// Of a word that is written, synced and read, with the most that one call of the device takes and
// the number of the call that fails.
fn try_word(alloc: Global, chunk: u8, failing: u64) -> Result<Tried, AllocError> {
    let chunk = usize::from(chunk).max(1);
    let device = MemoryDevice::new(alloc, chunk, [failing].to_vec(alloc)?);
    Ok(try_on(DeviceDisk::<MemoryDevice>::new(device)))
}

fn try_on(mut disk: DeviceDisk<MemoryDevice>) -> Tried {
    let written = disk.write_at(0, WORD).is_ok();
    let synced = disk.sync().is_ok();
    let read = reads(&mut disk, WORD);
    (written, synced, read, disk.faults())
}

// The most that one call takes, the call that fails, and what is seen. By threes the word is four
// writes, a sync, and four reads with a fifth at the end.
const TRIALS: [(u8, u64, Tried); 6] = [
    (20, NOWHERE, (true, true, 11, 0)),
    (1, NOWHERE, (true, true, 11, 0)),
    (3, NOWHERE, (true, true, 11, 0)),
    (3, 2, (false, true, 6, 1)),
    (3, 4, (true, false, 11, 1)),
    (3, 9, (true, true, NOWHERE, 1)),
];

#[test]
fn a_disk_goes_on_where_its_device_ended(rt: HostRuntime) -> Result<(), Fail> {
    for (chunk, failing, expected) in TRIALS {
        let tried = try_word(rt.alloc(), chunk, failing)?;
        shows(&rt, "the word on a device", tried == expected);
    }
    Ok(())
}

// Whether a byte is read, written and synced, and the disk's faults then.
fn try_byte(mut disk: FileDisk) -> ([bool; 3], u64) {
    let done = [
        disk.read_at(0, &mut [0; 4]).is_ok(),
        disk.write_at(0, &[1]).is_ok(),
        disk.sync().is_ok(),
    ];
    (done, disk.faults())
}

// All is full: nothing can be written, and neither device can be synced.
#[test]
fn devices_fail(rt: HostRuntime) -> Result<(), Fail> {
    let full = try_byte(file(&rt, "/dev/full")?);
    shows(&rt, "the full device", full == ([true, false, false], 2));
    let null = try_byte(file(&rt, "/dev/null")?);
    shows(&rt, "the null device", null == ([true, true, false], 1));
    Ok(())
}

// A read that fails is no end of the disk, and a folder that was opened to be read can't be
// written.
#[test]
fn a_folder_fails(rt: HostRuntime) -> Result<(), Fail> {
    let folder = FileDisk::new(Some(File::open(&rt, ".")?));
    let ([is_read, is_written, _], _) = try_byte(folder);
    shows(&rt, "a folder fails", !is_read && !is_written);
    Ok(())
}
