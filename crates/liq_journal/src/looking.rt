//! A disk looked at: its header, and the digest over the checkpoint, without memory.
ghost use Rattle.std.specs.Prelude.{◌≡◌, ◌≤◌, ◌+◌, ◌^◌, ◌⊎◌, Err, length, IfErr, IfOk, IfSome};
ghost use Rattle.liq_outside.specs.Disk.{Looked};
ghost use Rattle.liq_outside.specs.Faults.{HasCause};
ghost use Rattle.liq_journal.specs.Causes.{CountsLook};
ghost use Rattle.liq_journal.specs.Header.{AreInRange, IsDamageOf, MaybeSoundHeadOf};
ghost use Rattle.liq_journal.specs.Look.{look_on};
ghost use Rattle.liq_disk_header.specs.Layout.{header_digest, piece};

use crate::answers::{Look, LookFault};
use crate::damage::{Damage, What};
use crate::header::read_header;
use crate::reads::{PIECE_BYTES, read_at};
use liq_disk_header::{Head, fields_size, header_size};
use liq_outside::{Disk, Failed};
use sha2::{Digest, Sha256};

/// Looks at a disk: whether a journal is open on it, and of which generation. `odd` says whether
/// this disk has the odd generations. It tests the header and the digest over the checkpoint, and
/// none of the records. The disk stays as it is, and no memory is taken.
///
/// `Damaged` comes with the header's first fault, and `DiskFault` where a device call failed.
pub fn look<D: Disk>(disk: &mut D, odd: bool) -> Result<Look, LookFault>
    ensures told { IfSome (D.at disk.old).seen (λ held. (result ≡ look_on odd held)
        ⊎ (result ≡ Err LookFault.DiskFault)) }
    ensures looked { Looked D.at disk.old disk.new }
    ensures cause { CountsLook result (D.at disk.old).faults (D.at disk.new).faults }
{
    match sound_header(disk, odd) {
        Ok(Some(head)) => Ok(Look::Open {
            generation: head.generation,
        }),
        Ok(None) => Ok(Look::Absent),
        Err(why) => Err(why),
    }
}

// The header of the disk, if it is open: sound, with the right digest over its checkpoint, which
// was read piece by piece. So no memory is taken for a checkpoint before its digest is tested,
// however long the header says that it is.
pub fn sound_header<D: Disk>(disk: &mut D, odd: bool) -> Result<Option<Head>, LookFault>
    ensures looked { Looked D.at disk.old disk.new }
    ensures sound { IfOk result (λ head. IfSome (D.at disk.old).seen
        (λ held. MaybeSoundHeadOf odd held head)) }
    ensures fields { IfOk result (λ head. IfSome head (AreInRange odd)) }
    ensures fault { IfErr result (λ why. IfSome (D.at disk.old).seen
        (λ held. IsDamageOf odd held why)) }
    ensures cause { CountsLook result (D.at disk.old).faults (D.at disk.new).faults }
{
    let head = match read_header(disk, odd) {
        Ok(Some(head)) => head,
        Ok(None) => return Ok(None),
        Err(why) => return Err(why),
    };
    let fields = &head.fields[..fields_size(head.limit)];
    let computed = match digest_behind(disk, fields, header_size(head.limit), head.size) {
        Ok(computed) => computed,
        Err(_) => return Err(LookFault::DiskFault),
    };
    if head.stored != computed {
        return Err(LookFault::Damaged(Damage {
            index: 0,
            what: What::Digest {
                stored: head.stored,
                computed,
            },
        }));
    }
    Ok(Some(head))
}

// The digest of a header's fields and of the checkpoint, which stands at the place and is read
// piece by piece.
fn digest_behind<D: Disk>(
    disk: &mut D,
    fields: &[u8],
    place: u64,
    size: u64,
) -> Result<[u8; 32], Failed>
    requires { place + size ≤ 2 ^ 40 }
    ensures looked { Looked D.at disk.old disk.new }
    ensures told { IfOk result (λ digest. IfSome (D.at disk.old).seen
        (λ held. place + size ≤ length held
        → digest ≡ header_digest fields.now (piece place size held))) }
    ensures cause { HasCause (D.at disk.old).faults (D.at disk.new).faults result }
{
    let mut hasher = Sha256::new();
    hasher.update(fields);
    let mut chunk = [0; PIECE_BYTES];
    let mut done = 0;
    while done < size {
        let want = (size - done).min(PIECE_BYTES as u64) as usize;
        let part = &mut chunk[..want];
        let count = read_at(disk, place + done, part)?;
        if count == 0 {
            return Ok(hasher.finalize());
        }
        hasher.update(&part[..count]);
        done += count as u64;
    }
    Ok(hasher.finalize())
}
