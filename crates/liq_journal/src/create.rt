//! A new journal on a disk, in three parts: the gate at place 0 is shut; all behind it is written;
//! it is opened. Each part is synced before the next.
ghost use Rattle.std.specs.Prelude.{◌≡◌, ◌≤◌, ◌+◌, ◌^◌, Some, true, List, ℕ, length, option_map, OnOk, IfSome};
ghost use Rattle.liq_outside.specs.Disk.{IsLater, LeavesOnly, LeftNow, Only, overwritten};
ghost use Rattle.liq_journal.specs.Called.{Called};
ghost use Rattle.liq_journal.specs.Calls.{SettledIn, calls_behind, creating_calls};
ghost use Rattle.liq_journal.specs.Crash.{CrashOfCreate, ReadsOfCreate, IsShut, Stands, beginning, filled};
ghost use Rattle.liq_disk_header.specs.Header.{is_odd, is_size};
ghost use Rattle.liq_disk_header.specs.Layout.{version_2};

use crate::bytes::write_synced;
use crate::gate::settle;
use liq_disk_header::{HEADER, header_bytes};
use liq_outside::{Disk, Failed};

// Writes bytes behind the shut gate, unless there are none. No device call is made for none.
pub fn write_behind<D: Disk>(disk: &mut D, at: u64, bytes: &[u8]) -> Result<(), Failed>
    requires behind { 1 ≤ at }
    requires inside { IfSome (D.at disk.old).seen (λ held. at ≤ length held) }
    requires limit { at + length bytes.now ≤ 2 ^ 40 }
    ensures written { OnOk result ((D.at disk.new).seen ≡ option_map
        (λ held. overwritten held at bytes.now) (D.at disk.old).seen) }
    ensures crash { ((image : List ℕ) → LeftNow D.at disk.old image → IsShut image)
        → LeavesOnly D.at disk.old disk.new IsShut }
    ensures calls { OnOk result (IsLater D.at (calls_behind bytes.now) disk.old disk.new) }
    ensures called { Called D.at disk.old disk.new result }
{
    if bytes.is_empty() {
        return Ok(());
    }
    disk.write_at(at, bytes)
}

// Writes the header of version 2, the checkpoint and the first record's shut gate behind the shut
// gate, and syncs.
pub fn fill<D: Disk>(disk: &mut D, generation: u64, checkpoint: &[u8]) -> Result<(), Failed>
    requires there { IfSome (D.at disk.old).seen (λ held. 1 ≤ length held) }
    requires limit { length checkpoint.now ≤ 2 ^ 36 }
    ensures filled { OnOk result ((D.at disk.new).seen ≡ option_map
        (filled version_2 generation checkpoint.now) (D.at disk.old).seen) }
    ensures durable { OnOk result (IfSome (D.at disk.new).seen
        (λ after. Only after (LeftNow D.at disk.new))) }
    ensures crash { ((image : List ℕ) → LeftNow D.at disk.old image → IsShut image)
        → LeavesOnly D.at disk.old disk.new IsShut }
    ensures calls { OnOk result (IsLater D.at (3 + calls_behind checkpoint.now) disk.old disk.new) }
    ensures called { Called D.at disk.old disk.new result }
{
    write_behind(disk, 1, &header_bytes(generation, checkpoint))?;
    write_behind(disk, HEADER, checkpoint)?;
    write_behind(disk, HEADER + checkpoint.len() as u64, &[0])?;
    disk.sync()
}

// The three parts of a creation, of at most four device calls each.
pub fn make<D: Disk>(disk: &mut D, generation: u64, checkpoint: &[u8]) -> Result<(), Failed>
    requires from_one { 1 ≤ generation }
    requires limit { length checkpoint.now ≤ 2 ^ 36 }
    requires size { is_size generation (length checkpoint.now) ≡ true }
    ensures created { OnOk result ((held : List ℕ) → (D.at disk.old).seen ≡ Some held
        → (after : List ℕ) × ((D.at disk.new).seen ≡ Some after) × Stands (is_odd generation) after
        (beginning generation checkpoint.now)) }
    ensures durable { OnOk result (IfSome (D.at disk.new).seen
        (λ after. Only after (LeftNow D.at disk.new))) }
    ensures crash { CrashOfCreate D.at disk.old disk.new generation checkpoint.now }
    ensures reads { ReadsOfCreate D.at disk.old disk.new generation checkpoint.now }
    ensures calls { OnOk result (SettledIn D.at 0 (creating_calls checkpoint.now)
        disk.old disk.new) }
    ensures called { Called D.at disk.old disk.new result }
{
    settle(disk, 0)?;
    fill(disk, generation, checkpoint)?;
    write_synced(disk, 0, &[1])
}
