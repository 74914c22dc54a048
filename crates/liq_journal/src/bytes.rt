//! Writes that are on the disk when they return: with a sync, and behind a gate with two.
ghost use Rattle.std.specs.Prelude.{◌≡◌, ◌≤◌, ◌+◌, ◌^◌, Some, List, ℕ, length, option_map, OnOk, IfSome};
ghost use Rattle.liq_outside.specs.Disk.{IsLater, LeavesOnly, LeftNow, Only, Torn, overwritten};
ghost use Rattle.liq_journal.specs.Called.{Called};
ghost use Rattle.liq_journal.specs.Crash.{GatedLeaves, gated};

use liq_outside::{Disk, Failed};

// Writes bytes at a place and syncs. A crash in it leaves any part of the write.
pub fn write_synced<D: Disk>(disk: &mut D, at: u64, bytes: &[u8]) -> Result<(), Failed>
    requires inside { IfSome (D.at disk.old).seen (λ held. at ≤ length held) }
    requires limit { at + length bytes.now ≤ 2 ^ 40 }
    ensures written { OnOk result ((D.at disk.new).seen ≡ option_map
        (λ held. overwritten held at bytes.now) (D.at disk.old).seen) }
    ensures durable { OnOk result (IfSome (D.at disk.new).seen
        (λ held. Only held (LeftNow D.at disk.new))) }
    ensures crash { (held : List ℕ) → (D.at disk.old).seen ≡ Some held
        → Only held (LeftNow D.at disk.old)
        → LeavesOnly D.at disk.old disk.new (Torn at (length bytes.now) held) }
    ensures calls { OnOk result (IsLater D.at 2 disk.old disk.new) }
    ensures called { Called D.at disk.old disk.new result }
{
    disk.write_at(at, bytes)?;
    disk.sync()
}

// Writes bytes behind a shut gate, and opens it once they are on the disk. A crash in it leaves any
// part of the bytes behind the gate, or all of them and some gate.
pub fn write_gated<D: Disk>(disk: &mut D, gate: u64, bytes: &[u8]) -> Result<(), Failed>
    requires inside { IfSome (D.at disk.old).seen (λ held. gate + 1 ≤ length held) }
    requires limit { gate + 1 + length bytes.now ≤ 2 ^ 40 }
    ensures written { OnOk result ((D.at disk.new).seen ≡ option_map (gated gate bytes.now)
        (D.at disk.old).seen) }
    ensures durable { OnOk result (IfSome (D.at disk.new).seen
        (λ held. Only held (LeftNow D.at disk.new))) }
    ensures crash { (held : List ℕ) → (D.at disk.old).seen ≡ Some held
        → Only held (LeftNow D.at disk.old)
        → LeavesOnly D.at disk.old disk.new (GatedLeaves gate held bytes.now) }
    ensures calls { OnOk result (IsLater D.at 4 disk.old disk.new) }
    ensures called { Called D.at disk.old disk.new result }
{
    write_synced(disk, gate + 1, bytes)?;
    write_synced(disk, gate, &[1])
}
