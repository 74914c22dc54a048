//! A journal opened: a sync, then all of its disk read and tested in the order of its faults, and
//! the byte behind its last record shut where it isn't. Nothing else is written.
ghost use Rattle.std.specs.Prelude.{◌≡◌, ◌≤◌, ◌+◌, ◌^◌, ◌⊎◌, ◌↔◌, Some, IsTrue, true, Ok, Err, List, ℕ, length, OnOk, IfOk, IfErr, IfSome, IsSome};
ghost use Rattle.std.specs.Result.{MatchResult};
ghost use Rattle.liq_journal.specs.Crash.{Stands};
ghost use Rattle.liq_outside.specs.Disk.{LeavesOnly, LeftNow, Looked, Only};
ghost use Rattle.liq_outside.specs.Faults.{HasCause};
ghost use Rattle.liq_journal.specs.Called.{Called, Lasts};
ghost use Rattle.liq_journal.specs.Causes.{CountsOpen};
ghost use Rattle.liq_journal.specs.declared.damage.Damage.{Damage};
ghost use Rattle.liq_journal.specs.Opened.{AbsentLeaves, IsAtRest, IsKept, IsScanOf, IsUnshut, IsWhyOf, OpenLeaves, why_of};
ghost use Rattle.liq_disk_header.specs.Layout.{StartsWithin, piece};
ghost use Rattle.liq_journal.specs.Written.{Open, Written, found_on};
ghost use Rattle.liq_disk_header.specs.Header.{is_generation};

use crate::answers::{LookFault, OpenWhy};
use crate::bytes::write_synced;
use crate::gate::settle;
use crate::journal::RECORD_BYTES;
use crate::looking::sound_header;
use crate::reads::{PIECE_BYTES, read_at};
use crate::records::count_records;
use crate::scanned::Scanned;
use liq_disk_header::header_size;
use liq_outside::{Disk, Failed};
use std::alloc::Global;

// The bytes of the checkpoint, which stands at the place, read into memory: that of a sound header,
// whose digest over the same bytes was tested. A disk whose content is told has them all, and tells
// the same twice.
fn read_checkpoint<D: Disk>(
    alloc: Global,
    disk: &mut D,
    place: u64,
    size: u64,
) -> Result<Vec<u8>, OpenWhy>
    requires { place + size ≤ 2 ^ 40 }
    ensures looked { Looked D.at disk.old disk.new }
    ensures read { IfOk result (λ bytes. IfSome (D.at disk.old).seen
        (λ held. place + size ≤ length held → bytes.items ≡ piece place size held)) }
    ensures cause { CountsOpen result (D.at disk.old).faults (D.at disk.new).faults }
    ensures absent { result ≡ Err OpenWhy.Absent → ⊥ }
    ensures damaged { (damage : Damage) → result ≡ Err (OpenWhy.Damaged damage) → ⊥ }
{
    let mut checkpoint = Vec::new(alloc);
    let end = place + size;
    let mut chunk = [0; PIECE_BYTES];
    let mut at = place;
    while at < end {
        let want = (end - at).min(PIECE_BYTES as u64) as usize;
        let part = &mut chunk[..want];
        let count = match read_at(disk, at, part) {
            Ok(count) => count,
            Err(_) => return Err(OpenWhy::DiskFault),
        };
        if count == 0 {
            return Ok(checkpoint);
        }
        match checkpoint.extend_from_slice(&part[..count]) {
            Ok(()) => {}
            Err(_) => return Err(OpenWhy::NoMemory),
        }
        at += count as u64;
    }
    Ok(checkpoint)
}

fn why_of(why: LookFault) -> OpenWhy
    ensures { result ≡ why_of why }
{
    match why {
        LookFault::DiskFault => OpenWhy::DiskFault,
        LookFault::Damaged(damage) => OpenWhy::Damaged(damage),
    }
}

// Reads and tests all of a disk, in the order of its faults. Memory is taken behind a sound header
// alone.
fn scan<D: Disk>(alloc: Global, disk: &mut D, odd: bool) -> Result<Scanned, OpenWhy>
    ensures looked { Looked D.at disk.old disk.new }
    ensures bounds { IfOk result (λ s. StartsWithin s.limit s.start × (s.count ≤ 1000001)) }
    ensures generation { IfOk result (λ s. is_generation odd s.generation ≡ true) }
    ensures found { IfOk result (λ s. IfSome (D.at disk.old).seen (λ held. IsScanOf odd held s)) }
    ensures why { IfErr result (λ why. IfSome (D.at disk.old).seen (λ held. IsWhyOf odd held why)) }
    ensures cause { CountsOpen result (D.at disk.old).faults (D.at disk.new).faults }
{
    let head = match sound_header(disk, odd) {
        Ok(Some(head)) => head,
        Ok(None) => return Err(OpenWhy::Absent),
        Err(why) => return Err(why_of(why)),
    };
    let header = header_size(head.limit);
    // odd: match for ?
    let checkpoint = match read_checkpoint(alloc, disk, header, head.size) {
        Ok(checkpoint) => checkpoint,
        Err(why) => return Err(why),
    };
    let start = header + head.size;
    match count_records(disk, head.generation, start) {
        Ok(count) => Ok(Scanned {
            generation: head.generation,
            limit: head.limit,
            start,
            count,
            checkpoint,
        }),
        Err(why) => Err(why_of(why)),
    }
}

// Whether a byte other than 0 is at place 0.
fn is_unshut<D: Disk>(disk: &mut D) -> Result<bool, Failed>
    ensures looked { Looked D.at disk.old disk.new }
    ensures told { IfOk result (λ unshut. IfSome (D.at disk.old).seen (λ held. IsTrue unshut
        ↔ IsUnshut held)) }
    ensures cause { HasCause (D.at disk.old).faults (D.at disk.new).faults result }
{
    let mut gate = [0];
    let count = read_at(disk, 0, &mut gate)?;
    Ok(count == 1 && gate[0] != 0)
}

// Shuts the gate of a disk on which no journal is open, where it is there and isn't shut.
fn settle_absent<D: Disk>(disk: &mut D) -> Result<(), Failed>
    ensures shut { OnOk result (IfSome (D.at disk.new).seen (λ after. IsUnshut after → ⊥)) }
    ensures durable { OnOk result ((held : List ℕ) → (D.at disk.old).seen ≡ Some held
        → Only held (LeftNow D.at disk.old)
        → IfSome (D.at disk.new).seen (λ after. Only after (LeftNow D.at disk.new))) }
    ensures crash { (held : List ℕ) → (D.at disk.old).seen ≡ Some held
        → Only held (LeftNow D.at disk.old)
        → LeavesOnly D.at disk.old disk.new (AbsentLeaves held) }
    ensures called { Called D.at disk.old disk.new result }
{
    if !is_unshut(disk)? {
        return Ok(());
    }
    write_synced(disk, 0, &[0])
}

// Shuts the byte that an opening shuts, once the disk is read.
fn settle_scanned<D: Disk>(
    disk: &mut D,
    odd: bool,
    found: Result<Scanned, OpenWhy>,
) -> Result<Scanned, OpenWhy>
    requires found { MatchResult found
        (λ s. IfSome (D.at disk.old).seen (λ held. IsScanOf odd held s)
        × (StartsWithin s.limit s.start × (s.count ≤ 1000001)))
        (λ why. IfSome (D.at disk.old).seen (λ held. IsWhyOf odd held why)) }
    ensures same { MatchResult result
        (λ s. found ≡ Ok s)
        (λ why. (found ≡ Err why) ⊎ (why ≡ OpenWhy.DiskFault)) }
    ensures stands { IfOk result (λ _. (held : List ℕ) (w : Written)
        → (D.at disk.old).seen ≡ Some held → found_on odd held ≡ Open w
        → IfSome (D.at disk.new).seen (λ after. Stands odd after w)) }
    ensures durable { IfOk result (λ _. (held : List ℕ) → (D.at disk.old).seen ≡ Some held
        → Only held (LeftNow D.at disk.old)
        → IfSome (D.at disk.new).seen (λ after. Only after (LeftNow D.at disk.new))) }
    ensures kept { IfErr result (λ why. IsKept why → (D.at disk.new).seen ≡ (D.at disk.old).seen) }
    ensures absent { result ≡ Err OpenWhy.Absent
        → IfSome (D.at disk.new).seen (λ after. IsUnshut after → ⊥) }
    ensures at_rest { IfErr result (λ why. IsAtRest why → (held : List ℕ)
        → (D.at disk.old).seen ≡ Some held → Only held (LeftNow D.at disk.old)
        → IfSome (D.at disk.new).seen (λ after. Only after (LeftNow D.at disk.new))) }
    ensures crash { (held : List ℕ) → (D.at disk.old).seen ≡ Some held
        → Only held (LeftNow D.at disk.old)
        → LeavesOnly D.at disk.old disk.new (OpenLeaves odd held) }
    ensures lasts { Lasts D.at disk.old disk.new }
    ensures cause { (found ≡ Err OpenWhy.DiskFault → ⊥)
        → CountsOpen result (D.at disk.old).faults (D.at disk.new).faults }
    ensures faulted { found ≡ Err OpenWhy.DiskFault
        → (result ≡ found) × ((D.at disk.new).faults ≡ (D.at disk.old).faults) }
{
    match found {
        Ok(scanned) => match settle(disk, scanned.start + RECORD_BYTES * scanned.count) {
            Ok(()) => Ok(scanned),
            Err(_) => Err(OpenWhy::DiskFault),
        },
        Err(why) => match why {
            OpenWhy::Absent => match settle_absent(disk) {
                Ok(()) => Err(OpenWhy::Absent),
                Err(_) => Err(OpenWhy::DiskFault),
            },
            _ => Err(why),
        },
    }
}

// Opens the journal of a disk: syncs it, reads and tests all of it, and shuts the byte that is to
// be shut.
pub fn open_on<D: Disk>(alloc: Global, disk: &mut D, odd: bool) -> Result<Scanned, OpenWhy>
    ensures bounds { IfOk result (λ s. StartsWithin s.limit s.start × (s.count ≤ 1000001)) }
    ensures generation { IfOk result (λ s. is_generation odd s.generation ≡ true) }
    ensures found { IfOk result (λ s. IfSome (D.at disk.old).seen (λ held. IsScanOf odd held s)) }
    ensures stands { IfOk result (λ _. (held : List ℕ) (w : Written)
        → (D.at disk.old).seen ≡ Some held → found_on odd held ≡ Open w
        → IfSome (D.at disk.new).seen (λ after. Stands odd after w)) }
    ensures durable { IfOk result (λ _. IfSome (D.at disk.new).seen
        (λ after. Only after (LeftNow D.at disk.new))) }
    ensures why { IfErr result (λ why. IfSome (D.at disk.old).seen (λ held. IsWhyOf odd held why)) }
    ensures kept { IfErr result (λ why. IsKept why → (D.at disk.new).seen ≡ (D.at disk.old).seen) }
    ensures absent { result ≡ Err OpenWhy.Absent
        → IfSome (D.at disk.new).seen (λ after. IsUnshut after → ⊥) }
    ensures at_rest { IfErr result (λ why. IsAtRest why
        → IfSome (D.at disk.new).seen (λ after. Only after (LeftNow D.at disk.new))) }
    ensures crash { (held : List ℕ) → (D.at disk.old).seen ≡ Some held
        → Only held (LeftNow D.at disk.old)
        → LeavesOnly D.at disk.old disk.new (OpenLeaves odd held) }
    ensures reads { (held after : List ℕ) → (D.at disk.old).seen ≡ Some held
        → (D.at disk.new).seen ≡ Some after → OpenLeaves odd held after }
    ensures lasts { Lasts D.at disk.old disk.new }
    ensures cause { CountsOpen result (D.at disk.old).faults (D.at disk.new).faults }
{
    match disk.sync() {
        Ok(()) => {}
        Err(_) => return Err(OpenWhy::DiskFault),
    }
    let found = scan(alloc, disk, odd);
    settle_scanned(disk, odd, found)
}
