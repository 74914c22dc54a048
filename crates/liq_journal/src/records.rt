//! Records read back and tested: counted from the first on at an opening, and one by its number
//! afterwards.
ghost use Rattle.std.specs.Prelude.{◌≡◌, ◌≤◌, ◌<◌, ◌+◌, ◌^◌, ◌++◌, Ok, Err, List, ℕ, length, take, drop, IfOk, IfErr, IfSome};
ghost use Rattle.std.specs.Result.{MatchResult};
ghost use Rattle.liq_types.specs.declared.requests.Command.{Command};
ghost use Rattle.liq_journal.specs.Bodies.{IsBodyFault};
ghost use Rattle.liq_journal.specs.Causes.{CountsLook};
ghost use Rattle.liq_journal.specs.Counted.{AreRecords, IsFaultIn};
ghost use Rattle.liq_outside.specs.Disk.{Looked};
ghost use Rattle.liq_journal.specs.Parts.{IsPartOf};
ghost use Rattle.liq_journal.specs.Crash.{IsBodyOf};
ghost use Rattle.liq_journal.specs.Tested.{IsBodyRead, IsFaultOf, IsFaultRead, IsTested};
ghost use Rattle.liq_disk_header.specs.Layout.{piece, start_most};
ghost use Rattle.liq_journal.specs.Written.{record_on};

use crate::answers::LookFault;
use crate::block::Block;
use crate::damage::{Damage, What};
use crate::reads::read_at;
use liq_disk_header::record_digest;
use liq_outside::Disk;
use liq_types::{Call, Command};
use liq_wire::decode;

// What stands behind the gate of a record: the body, and the digest behind it.
#[derive(Clone, Copy)]
struct Raw {
    body: [u8; 96],
    stored: [u8; 32],
}

// The command of a record whose body begins at the place, or its first fault.
fn test_record(raw: &Raw, generation: u64, index: u64, place: u64) -> Result<Command, What>
    requires { place ≤ 2 ^ 40 }
    ensures { MatchResult result
        (λ c. record_on generation index place (raw.now.body ++ raw.now.stored) ≡ Ok c)
        (λ what. record_on generation index place (raw.now.body ++ raw.now.stored) ≡ Err what) }
{
    let computed = record_digest(generation, index, &raw.body);
    if raw.stored != computed {
        return Err(What::Digest {
            stored: raw.stored,
            computed,
        });
    }
    match decode(&raw.body) {
        Ok(command) => match command.call {
            Call::Rotate => Err(What::Form { place }),
            _ => Ok(command),
        },
        Err(bad) => Err(What::Form {
            place: place + bad.place as u64,
        }),
    }
}

// The command that the body spells, which begins at the place; or the record's first fault.
fn decode_record(raw: &Raw, generation: u64, index: u64, place: u64) -> Result<Command, What>
    requires { place ≤ 2 ^ 40 }
    ensures { MatchResult result (IsBodyOf raw.now.body)
        (λ what. record_on generation index place (raw.now.body ++ raw.now.stored) ≡ Err what) }
{
    match decode(&raw.body) {
        Ok(command) if !matches!(command.call, Call::Rotate) => Ok(command),
        _ => test_record(raw, generation, index, place),
    }
}

// The body of the record whose gate stands at the place, once it is tested; `None` where no whole
// record stands there behind an open gate.
fn read_record<D: Disk>(
    disk: &mut D,
    block: &mut Block,
    generation: u64,
    index: u64,
    place: u64,
) -> Result<Option<[u8; 96]>, LookFault>
    requires limit { place < 2 ^ 40 }
    requires part { IfSome (D.at disk.old).seen (IsPartOf block.old) }
    ensures part { IfSome (D.at disk.new).seen (IsPartOf block.new) }
    ensures looked { Looked D.at disk.old disk.new }
    ensures tested { IfOk result (λ body. IfSome (D.at disk.old).seen
        (λ held. IsTested generation index place held body)) }
    ensures fault { IfErr result (λ why. IfSome (D.at disk.old).seen
        (λ held. IsFaultOf generation index place held why)) }
    ensures cause { CountsLook result (D.at disk.old).faults (D.at disk.new).faults }
{
    let mut bytes = [0; 129];
    let count = match block.copy(disk, place, &mut bytes) {
        Ok(count) => count,
        Err(_) => return Err(LookFault::DiskFault),
    };
    if count < 129 || bytes[0] != 1 {
        return Ok(None);
    }
    let raw = split(&bytes[1..]);
    match test_record(&raw, generation, index, place + 1) {
        Ok(_) => Ok(Some(raw.body)),
        Err(what) => Err(LookFault::Damaged(Damage { index, what })),
    }
}

// The body and the digest in the bytes of a record.
fn split(bytes: &[u8]) -> Raw
    requires { length bytes.now ≡ 128 }
    ensures body { result.body ≡ take 96 bytes.now }
    ensures stored { result.stored ≡ drop 96 bytes.now }
{
    let mut body = [0; 96];
    body.copy_from_slice(&bytes[..96]);
    let mut stored = [0; 32];
    stored.copy_from_slice(&bytes[96..]);
    Raw { body, stored }
}

// The body of the record whose gate stands at the place, once it is tested, whatever the gate is.
pub fn read_body<D: Disk>(
    disk: &mut D,
    generation: u64,
    index: u64,
    place: u64,
) -> Result<[u8; 96], LookFault>
    requires { place < 2 ^ 40 }
    ensures looked { Looked D.at disk.old disk.new }
    ensures command { IfOk result (λ body. (command : Command) × IsBodyOf body command) }
    ensures damaged { IfErr result (IsBodyFault generation index (place + 1)) }
    ensures told { IfSome (D.at disk.old).seen (λ held. place + 129 ≤ length held
        → MatchResult result (IsBodyRead generation index (place + 1) held)
        (IsFaultRead generation index (place + 1) held)) }
    ensures cause { CountsLook result (D.at disk.old).faults (D.at disk.new).faults }
{
    let mut bytes = [0; 128];
    match read_at(disk, place + 1, &mut bytes) {
        Ok(_) => {}
        Err(_) => return Err(LookFault::DiskFault),
    }
    let raw = split(&bytes);
    match test_record(&raw, generation, index, place + 1) {
        Ok(_) => Ok(raw.body),
        Err(what) => Err(LookFault::Damaged(Damage { index, what })),
    }
}

// The command of the record whose gate stands at the place, whatever the gate is: a record that was
// tested already, so that its digest is worked out only where its body is no command.
pub fn read_command<D: Disk>(
    disk: &mut D,
    block: &mut Block,
    generation: u64,
    index: u64,
    place: u64,
) -> Result<Command, LookFault>
    requires limit { place < 2 ^ 40 }
    requires part { IfSome (D.at disk.old).seen (IsPartOf block.old) }
    ensures part { IfSome (D.at disk.new).seen (IsPartOf block.new) }
    ensures looked { Looked D.at disk.old disk.new }
    ensures command { IfOk result (λ command. (body : List ℕ) × IsBodyOf body command) }
    ensures damaged { IfErr result (IsBodyFault generation index (place + 1)) }
    ensures told { IfSome (D.at disk.old).seen (λ held. place + 129 ≤ length held
        → MatchResult result (IsBodyOf (piece (place + 1) 96 held))
        (IsFaultRead generation index (place + 1) held)) }
    ensures cause { CountsLook result (D.at disk.old).faults (D.at disk.new).faults }
{
    let mut bytes = [0; 128];
    match block.copy(disk, place + 1, &mut bytes) {
        Ok(_) => {}
        Err(_) => return Err(LookFault::DiskFault),
    }
    let raw = split(&bytes);
    match decode_record(&raw, generation, index, place + 1) {
        Ok(command) => Ok(command),
        Err(what) => Err(LookFault::Damaged(Damage { index, what })),
    }
}

// How many whole records there are from the place on, one more at most than a journal may have,
// each tested; or the first fault of them.
pub fn count_records<D: Disk>(disk: &mut D, generation: u64, start: u64) -> Result<u64, LookFault>
    requires { start ≤ start_most }
    ensures looked { Looked D.at disk.old disk.new }
    ensures most { IfOk result (λ count. count ≤ 1000001) }
    ensures counted { IfOk result (λ count. IfSome (D.at disk.old).seen
        (λ held. AreRecords generation start held count)) }
    ensures fault { IfErr result (λ why. IfSome (D.at disk.old).seen
        (λ held. IsFaultIn generation start held why)) }
    ensures cause { CountsLook result (D.at disk.old).faults (D.at disk.new).faults }
{
    let mut block = Block::new();
    for count in 0..1_000_001 {
        match read_record(disk, &mut block, generation, count + 1, start + 129 * count) {
            Ok(Some(_)) => {}
            Ok(None) => return Ok(count),
            Err(why) => return Err(why),
        }
    }
    Ok(1_000_001)
}
