//! Device calls that look at a disk, and leave it as it is.
ghost use Rattle.std.specs.Prelude.{◌≡◌, ◌≤◌, length, IfOk, IfSome};
ghost use Rattle.liq_outside.specs.Disk.{Looked};
ghost use Rattle.liq_outside.specs.Faults.{HasCause};
ghost use Rattle.liq_journal.specs.Looked.{IsRead};

use liq_outside::{Disk, Failed};

// How many bytes of a checkpoint are read at once.
pub const PIECE_BYTES: usize = 65536;

// Reads from a place on into the front of `buf`, and says how many bytes.
pub fn read_at<D: Disk>(disk: &mut D, at: u64, buf: &mut [u8]) -> Result<usize, Failed>
    ensures fits { IfOk result (λ n. n ≤ length buf.old) }
    ensures told { IfOk result (λ n. IfSome (D.at disk.old).seen
        (IsRead at (length buf.old) n buf.new)) }
    ensures looked { Looked D.at disk.old disk.new }
    ensures cause { HasCause (D.at disk.old).faults (D.at disk.new).faults result }
{
    disk.read_at(at, buf)
}

// How many bytes the disk has.
pub fn count_bytes<D: Disk>(disk: &mut D) -> Result<u64, Failed>
    ensures told { IfOk result (λ n. IfSome (D.at disk.old).seen (λ held. n ≡ length held)) }
    ensures looked { Looked D.at disk.old disk.new }
    ensures cause { HasCause (D.at disk.old).faults (D.at disk.new).faults result }
{
    disk.length()
}
