//! Gate bytes: whether one is shut, and shutting it. What stands behind a shut gate counts for
//! nothing.
ghost use Rattle.std.specs.Prelude.{◌≡◌, ◌≤◌, ◌<◌, ◌^◌, ◌↔◌, Some, IsTrue, List, ℕ, length, take, OnOk, IfOk, IfSome};
ghost use Rattle.liq_outside.specs.Disk.{LeavesOnly, LeftNow, Looked, Only};
ghost use Rattle.liq_outside.specs.Faults.{HasCause};
ghost use Rattle.liq_journal.specs.Called.{Called};
ghost use Rattle.liq_journal.specs.Calls.{SettledIn};
ghost use Rattle.liq_journal.specs.Crash.{HasGate, SettleLeaves};

use crate::bytes::write_synced;
use crate::reads::read_at;
use liq_outside::{Disk, Failed};

// Whether a shut gate is at the place.
fn is_shut<D: Disk>(disk: &mut D, place: u64) -> Result<bool, Failed>
    ensures looked { Looked D.at disk.old disk.new }
    ensures told { IfOk result (λ shut. IfSome (D.at disk.old).seen (λ held. IsTrue shut
        ↔ HasGate place held)) }
    ensures cause { HasCause (D.at disk.old).faults (D.at disk.new).faults result }
{
    let mut gate = [1];
    let count = read_at(disk, place, &mut gate)?;
    Ok(count == 1 && gate[0] == 0)
}

// Shuts the gate at the place, unless it is there and shut.
pub fn settle<D: Disk>(disk: &mut D, place: u64) -> Result<(), Failed>
    requires inside { IfSome (D.at disk.old).seen (λ held. place ≤ length held) }
    requires limit { place < 2 ^ 40 }
    ensures settled { OnOk result (IfSome (D.at disk.new).seen (λ after. HasGate place after)) }
    ensures front { OnOk result ((held : List ℕ) → (D.at disk.old).seen ≡ Some held
        → IfSome (D.at disk.new).seen (λ after. take place after ≡ take place held)) }
    ensures durable { OnOk result ((held : List ℕ) → (D.at disk.old).seen ≡ Some held
        → Only held (LeftNow D.at disk.old)
        → IfSome (D.at disk.new).seen (λ after. Only after (LeftNow D.at disk.new))) }
    ensures crash { (held : List ℕ) → (D.at disk.old).seen ≡ Some held
        → Only held (LeftNow D.at disk.old)
        → LeavesOnly D.at disk.old disk.new (SettleLeaves place held) }
    ensures calls { OnOk result (SettledIn D.at place 0 disk.old disk.new) }
    ensures called { Called D.at disk.old disk.new result }
{
    if is_shut(disk, place)? {
        return Ok(());
    }
    write_synced(disk, place, &[0])
}
