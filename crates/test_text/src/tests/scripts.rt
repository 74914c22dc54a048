//! As many lines of sessions as are answered.

use crate::tests::checks::{NOWHERE, same};
use liq_outside::MemorySource;
use liq_sessions::Script;
use liq_text_scripts::{Stop, read_scripts};
use std::alloc::{AllocError, Global};
use std::test::Fail;

/// As many lines as there may be.
const LINES: usize = 1_000_000;

// So many lines of the third session, and the first byte of one more.
fn long_input(alloc: Global) -> Result<Vec<u8>, AllocError> {
    let mut bytes = Vec::new(alloc);
    for _ in 0..LINES {
        bytes.extend_from_slice(b"3 ? pools\n")?;
    }
    bytes.push(b'?')?;
    Ok(bytes)
}

// How many requests the third session has.
fn third(scripts: &[Script]) -> u64 {
    match scripts.get(2) {
        Some(script) => script.requests.len() as u64,
        None => 0,
    }
}

// The same where the lines are read, or nothing where they are more than there may be.
fn read(alloc: Global, mut input: MemorySource) -> u64 {
    match read_scripts(alloc, &mut input) {
        Ok(scripts) => third(&scripts),
        Err(Stop::Limit) => 0,
        Err(_) => NOWHERE,
    }
}

fn read_lines(alloc: Global, lines: &[u8]) -> Result<u64, AllocError> {
    let input = MemorySource::new(lines.to_vec(alloc)?, 65_536, Vec::new(alloc));
    Ok(read(alloc, input))
}

/// As many lines as are answered, and then one more begins.
#[test]
fn limit(rt: HostRuntime) -> Result<(), Fail> {
    let lines = long_input(rt.alloc())?;
    let most = lines.get(..10 * LINES).unwrap_or(&[]);
    let count = read_lines(rt.alloc(), most)?;
    same(&rt, count, 1_000_000, "as many lines as there may be");
    let more = read_lines(rt.alloc(), &lines)?;
    same(&rt, more, 0, "one line more");
    Ok(())
}
