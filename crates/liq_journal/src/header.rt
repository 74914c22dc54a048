//! A header read from a disk and tested.
ghost use Rattle.std.specs.Prelude.{◌≡◌, IfOk, IfErr, IfSome};
ghost use Rattle.liq_journal.specs.Causes.{CountsLook};
ghost use Rattle.liq_journal.specs.Header.{AreInRange, IsDamageOf, MaybeHeadOf};
ghost use Rattle.liq_journal.specs.declared.damage.What.TheVariants.{Form};
ghost use Rattle.liq_journal.specs.declared.answers.LookFault.TheVariants.{Damaged};
ghost use Rattle.liq_outside.specs.Disk.{Looked};

use crate::answers::LookFault;
use crate::damage::{Damage, What};
use crate::reads::{count_bytes, read_at};
use liq_disk_header::{Head, header_size, is_absent, placed};
use liq_outside::Disk;

// The header of the disk, if it is open: its fields, which are right, and whose checkpoint is
// there.
pub fn read_header<D: Disk>(disk: &mut D, odd: bool) -> Result<Option<Head>, LookFault>
    ensures looked { Looked D.at disk.old disk.new }
    ensures read { IfOk result (λ head. IfSome (D.at disk.old).seen
        (λ held. MaybeHeadOf odd held head)) }
    ensures fields { IfOk result (λ head. IfSome head (AreInRange odd)) }
    ensures fault { IfErr result (λ why. IfSome (D.at disk.old).seen
        (λ held. IsDamageOf odd held why)) }
    ensures cause { CountsLook result (D.at disk.old).faults (D.at disk.new).faults }
{
    let mut bytes = [0; 65];
    let count = match read_at(disk, 0, &mut bytes) {
        Ok(count) => count,
        Err(_) => return Err(LookFault::DiskFault),
    };
    if is_absent(&bytes, count) {
        return Ok(None);
    }
    let head = match placed(&bytes, odd) {
        Ok(head) => head,
        Err(place) => return Err(form(place)),
    };
    let length = match count_bytes(disk) {
        Ok(length) => length,
        Err(_) => return Err(LookFault::DiskFault),
    };
    if length < header_size(head.limit) + head.size {
        return Err(form(length));
    }
    Ok(Some(head))
}

// A header's fault at this place.
fn form(place: u64) -> LookFault
    ensures { result ≡ Damaged (record { index = 0; what = Form place }) }
{
    LookFault::Damaged(Damage {
        index: 0,
        what: What::Form { place },
    })
}
