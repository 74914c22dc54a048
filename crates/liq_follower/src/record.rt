//! A whole record: tested, and the step of its command made.
ghost use Rattle.std.specs.Prelude.{◌≡◌, false, take, drop, IfSome};
ghost use Rattle.std.specs.Str.{bytes_eq};
ghost use Rattle.liq_types.specs.State.{State};
ghost use Rattle.liq_core.specs.Core.{StandsFor};
ghost use Rattle.liq_types.specs.Verbs.{is_rotate};
ghost use Rattle.liq_disk_header.specs.RecordDigest.{record_digest};
ghost use Rattle.liq_disk_replay.specs.Making.{Replays};
ghost use Rattle.liq_follower.specs.Judging.{IsSpelled, IsTaken, IsTested};

use crate::held::BODY_AND_DIGEST;
use crate::phase::Phase;
use liq_core_hinted::Guided;
use liq_disk_header::record_digest;
use liq_disk_replay::{ReplayFault, redo};
use liq_types::{Call, Command, NoMemory, Steps};
use liq_wire::decode;
use std::marker::Brand;
use std::sync::ledger::{Blank, Ledger};

// The body of a record.
fn body_of(raw: &[u8; BODY_AND_DIGEST]) -> [u8; 96]
    ensures { result ≡ take 96 raw.now }
{
    let mut body = [0; 96];
    body.copy_from_slice(&raw[..96]);
    body
}

// Whether the digest behind the body is that of the record of this number in the first generation.
fn has_digest(raw: &[u8; BODY_AND_DIGEST], index: u64) -> bool
    ensures { result ≡ bytes_eq (drop 96 raw.now) (record_digest 1 index (take 96 raw.now)) }
{
    &raw[96..] == record_digest(1, index, &body_of(raw)).as_slice()
}

// The command that the body spells, whatever the digest: none where it is no command, or a
// rotation.
fn decode_record(raw: &[u8; BODY_AND_DIGEST]) -> Option<Command>
    ensures spelled { IsSpelled raw.now result }
    ensures stays { IfSome result (λ c. is_rotate c.call ≡ false) }
{
    match decode(&body_of(raw)) {
        Ok(command) => match command.call {
            Call::Rotate => None,
            _ => Some(command),
        },
        Err(_) => None,
    }
}

// The command of the record of this number in the first generation: its digest is right, and its
// body is a command that is no rotation.
fn test_record(raw: &[u8; BODY_AND_DIGEST], index: u64) -> Option<Command>
    ensures tested { IsTested index raw.now result }
    ensures stays { IfSome result (λ c. is_rotate c.call ≡ false) }
{
    if !has_digest(raw, index) {
        return None;
    }
    decode_record(raw)
}

// Makes a command again. Its steps are counted on a ledger of their own.
fn make_on<L: Ledger>(
    protocol: &mut Guided,
    command: &Command,
    index: u64,
    blank: Blank,
) -> Result<(), ReplayFault>
    requires name { blank.name ≡ L.name }
    requires parts { blank.parts ≡ L.parts }
    requires one { L.parts ≡ 1 }
    ensures { (s : State) → StandsFor protocol.old s
        → Replays s command.now index protocol.new result }
{
    redo(
        protocol,
        &mut (),
        command,
        index,
        &mut Steps::<L>::new(blank),
    )
}

// The same, on a ledger of one part.
fn make(protocol: &mut Guided, command: &Command, index: u64) -> Result<(), ReplayFault>
    ensures { (s : State) → StandsFor protocol.old s
        → Replays s command.now index protocol.new result }
{
    // odd: steps counted
    make_on::<Brand>(protocol, command, index, Blank::new(1))
}

// Makes the step of the command of a whole record of this number, if it has one and the rules allow
// it, and tells the phase behind it.
pub fn take(
    protocol: &mut Guided,
    raw: &[u8; BODY_AND_DIGEST],
    index: u64,
) -> Result<Phase, NoMemory>
    ensures { (s : State) → StandsFor protocol.old s → IsTaken s index raw.now protocol.new result }
{
    let Some(command) = test_record(raw, index) else {
        return Ok(Phase::Damaged { index });
    };
    match make(protocol, &command, index) {
        Ok(()) => Ok(Phase::Gate),
        Err(ReplayFault::Damaged(_)) => Ok(Phase::Damaged { index }),
        Err(ReplayFault::NoMemory) => Err(NoMemory),
    }
}
