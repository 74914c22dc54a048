//! Journals over disks.
ghost use Rattle.std.specs.Prelude.{◌≡◌};
ghost use Rattle.liq_types.specs.declared.requests.Call.TheVariants.{Fund};

use crate::tests::disks::{disk, no_bytes};
use crate::tests::found::{Found, of_opening};
use liq_journal::Journal;
use liq_outside::Disk;
use liq_types::{Call, Command};
use liq_wire::encode;
use std::alloc::{AllocError, Global};

// `1 NUMBER fund 1 10000000000`
pub fn fund(number: u64) -> Command
    ensures { result ≡ record { client = 1; number = number; call = Fund 1 10000000000 } }
{
    Command {
        client: 1,
        number,
        call: Call::Fund(1, 10_000_000_000),
    }
}

/// What a call left: the disk, and whether it succeeded.
#[derive(Drop)]
pub struct Left<D> {
    pub disk: D,
    pub made: bool,
}

/// Creates a journal.
pub fn create<D: Disk>(disk: D) -> Left<D> {
    match Journal::create(disk, 1, &[]) {
        Ok(journal) => Left {
            disk: journal.close(),
            made: true,
        },
        Err(fault) => Left {
            disk: fault.disk,
            made: false,
        },
    }
}

/// What an opening left: the disk, and what was found.
#[derive(Drop)]
pub struct Opened<D> {
    pub disk: D,
    pub found: Found,
}

/// Opens the journal and closes it.
pub fn open<D: Disk>(alloc: Global, disk: D) -> Opened<D> {
    match Journal::open(alloc, disk, true) {
        Ok((journal, _)) => {
            let found = Found::Records(journal.records());
            Opened {
                disk: journal.close(),
                found,
            }
        }
        Err(fault) => Opened {
            disk: fault.disk,
            found: of_opening(&fault.why),
        },
    }
}

/// What an opening finds in these bytes.
pub fn find_in(alloc: Global, bytes: &[u8]) -> Result<Found, AllocError> {
    Ok(open(alloc, disk(alloc, bytes, &[])?).found)
}

/// Opens the journal, appends a record and closes it; whether both calls succeeded.
pub fn append<D: Disk>(alloc: Global, disk: D, command: &Command) -> Left<D> {
    match Journal::open(alloc, disk, true) {
        Ok((journal, _)) => {
            let mut journal = journal;
            let mut made = false;
            if journal.records() < 1_000_000 {
                made = journal.append(&encode(command)).is_ok();
            }
            Left {
                disk: journal.close(),
                made,
            }
        }
        Err(fault) => Left {
            disk: fault.disk,
            made: false,
        },
    }
}

/// The bytes of a journal with so many records.
pub fn journal(alloc: Global, records: u64) -> Result<Vec<u8>, AllocError> {
    let mut left = create(no_bytes(alloc));
    for number in 0..records {
        left = append(alloc, left.disk, &fund(number.saturating_add(1)));
    }
    left.disk.bytes().to_vec(alloc)
}
