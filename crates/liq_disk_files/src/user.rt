//! Who runs the program.

use std::fs::{File, Files};
use std::io::Read;

// The front of a process's status, in which the line stands: some ten short lines.
const FRONT_BYTES: usize = 4096;

/// The number of the effective user, by which the system judges what the program may open; none
/// where the system does not say it. No memory is taken for it: want of memory is no fault of a
/// disk.
pub fn effective_user<F: Files<File = File>>(files: &F) -> Option<u32> {
    let mut status = [0; FRONT_BYTES];
    let count = File::open(files, "/proc/self/status")
        .ok()?
        .read(&mut status)
        .ok()?;
    effective_user_in(&status[..count])
}

// In a process's status the line `Uid:` has four numbers: the real user, the effective one, the
// saved one and that of files. The first line has the program's name, cut off behind 15 bytes: so
// it need not be UTF-8.
fn effective_user_in(status: &[u8]) -> Option<u32> {
    let users = status
        .split(|byte| *byte == b'\n')
        .find_map(|line| line.strip_prefix(b"Uid:"))?;
    let users = str::from_utf8(users).ok()?;
    users.split_whitespace().nth(1)?.parse().ok()
}
