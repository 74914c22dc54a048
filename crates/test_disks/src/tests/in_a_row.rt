//! Calls in a row on one journal, each of which leaves what the next one asks for.
ghost use Rattle.std.specs.Prelude.{◌≡◌, ◌∷◌, [], Some, false, true, List, ℕ, IfOk};
ghost use Rattle.liq_types.specs.declared.amounts.TheConstants.{LIM};
ghost use Rattle.liq_wire.specs.Fields.{HasHints};
ghost use Rattle.liq_journal.specs.Crash.{Stands};
ghost use Rattle.liq_types.specs.Verbs.{is_rotate};

use crate::tests::checks::shows;
use crate::tests::disks::{TWO_RECORDS, no_bytes};
use crate::tests::journals::fund;
use liq_journal::Journal;
use liq_outside::{Disk, MemoryDisk};
use liq_types::Command;
use liq_wire::encode;

// A new journal with two records, or the disk that failed. Where the disk tells its content, it is
// then the journal of the two commands.
fn two_records<D: Disk>(disk: D, first: &Command, second: &Command) -> Result<Journal<D>, D>
    requires hints { HasHints first.now.call × HasHints second.now.call }
    requires no_rotation { (is_rotate first.now.call ≡ false)
        × (is_rotate second.now.call ≡ false) }
    ensures { IfOk result (λ j. (held : List ℕ) → (D.at disk).seen ≡ Some held
        → (after : List ℕ) × ((D.at j.disk).seen ≡ Some after)
        × Stands true after (record {
          generation = 1;
          limit = LIM;
          checkpoint = [];
          commands = first.now ∷ second.now ∷ [];
        })) }
{
    let mut journal = match Journal::create(disk, 1, &[]) {
        Ok(journal) => journal,
        Err(fault) => return Err(fault.disk),
    };
    match journal.append(&encode(first)) {
        Ok(()) => {}
        Err(_) => return Err(journal.close()),
    }
    match journal.append(&encode(second)) {
        Ok(()) => Ok(journal),
        Err(_) => Err(journal.close()),
    }
}

// What is left of two appends in a row: how many records, and whether the disk holds their bytes.
#[derive(Clone, Copy)]
struct Row {
    records: u64,
    is_right: bool,
}

fn of_two(disk: MemoryDisk) -> Row {
    match two_records(disk, &fund(1), &fund(2)) {
        Ok(journal) => Row {
            records: journal.records(),
            is_right: journal.close().bytes() == TWO_RECORDS,
        },
        Err(_) => Row {
            records: 0,
            is_right: false,
        },
    }
}

#[test]
fn a_creation_and_two_appends(rt: HostRuntime) {
    let row = of_two(no_bytes(rt.alloc()));
    let is_two = row.is_right && row.records == 2;
    shows(&rt, "two appends in a row, and their bytes", is_two);
}
