//! How a command's record is written.
ghost use Rattle.std.specs.Prelude.{◌≡◌, ◌<◌, ◌+◌, Some, List, ℕ, false, IfSome, OnErr, OnOk};
ghost use Rattle.liq_outside.specs.Disk.{IsLater, LeavesOnly, LeftNow, Only};
ghost use Rattle.liq_journal.specs.Called.{Called};
ghost use Rattle.liq_journal.specs.Crash.{BeforeOrAfter, Stands, is_odd};
ghost use Rattle.liq_journal.specs.Settled.{IsSettled};
ghost use Rattle.liq_types.specs.Verbs.{is_rotate};
ghost use Rattle.liq_journal.specs.Written.{Written, and_then};
ghost use Rattle.liq_disk_pair.specs.Commands.{read_back};

use liq_journal::{DiskFault, Journal};
use liq_outside::Disk;
use liq_types::Command;
use liq_wire::encode;

/// Writes the record of a command, which may be answered behind it: at `Ok` the record is on the
/// disk, and is read back as the command. After `DiskFault` nothing more may be written. A crash at
/// any moment leaves the records before it, or with it.
pub fn write_record<D: Disk>(taken: &mut Journal<D>, command: &Command) -> Result<(), DiskFault>
    requires stays { is_rotate command.now.call ≡ false }
    requires few { taken.old.count < 1000000 }
    requires settled { IfSome (D.at taken.old.disk).seen
        (IsSettled taken.old.generation taken.old.start taken.old.count) }

    ensures same { taken.new ≡ record taken.old {
      disk = taken.new.disk;
      count = taken.new.count;
    } }
    ensures one_more { OnOk result (taken.new.count ≡ taken.old.count + 1) }
    ensures no_more { OnErr result (taken.new.count ≡ taken.old.count) }

    // Where the disk tells its content.
    ensures appended { OnOk result ((held : List ℕ) (w : Written)
        → (D.at taken.old.disk).seen ≡ Some held → Stands (is_odd taken.old.generation) held w
        → (after : List ℕ) × ((D.at taken.new.disk).seen ≡ Some after)
        × Stands (is_odd taken.old.generation) after (and_then w (read_back command.now))) }
    ensures settled { OnOk result (IfSome (D.at taken.new.disk).seen
        (IsSettled taken.new.generation taken.new.start taken.new.count)) }
    ensures durable { OnOk result (IfSome (D.at taken.new.disk).seen
        (λ held. Only held (LeftNow D.at taken.new.disk))) }
    ensures crash { (held : List ℕ) (w : Written) → (D.at taken.old.disk).seen ≡ Some held
        → Only held (LeftNow D.at taken.old.disk) → Stands (is_odd taken.old.generation) held w
        → LeavesOnly D.at taken.old.disk taken.new.disk
        (BeforeOrAfter (is_odd taken.old.generation) w (read_back command.now)) }
    // Its device calls are those of `Journal::append`.
    ensures calls { OnOk result (IsLater D.at 4 taken.old.disk taken.new.disk) }
    ensures called { Called D.at taken.old.disk taken.new.disk result }
{
    match taken.append(&encode(command)) {
        Ok(()) => Ok(()),
        Err(fault) => Err(fault),
    }
}
