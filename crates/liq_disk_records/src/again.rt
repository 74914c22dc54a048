//! A journal's commands, made again one after the other.
ghost use Rattle.std.specs.Prelude.{◌≡◌, ◌≤◌, ◌<◌, ◌+◌, ◌-◌, Some, Ok, Err, List, ℕ, length};
ghost use Rattle.std.specs.Prelude.{slice_get, drop, OnOk, IfSome};
ghost use Rattle.std.specs.Result.{MatchResult};
ghost use Rattle.liq_types.specs.declared.requests.Command.{Command};
ghost use Rattle.liq_types.specs.State.{State};
ghost use Rattle.liq_core.specs.Core.{StandsFor};
ghost use Rattle.liq_journal.specs.Bodies.{IsJournalOf};
ghost use Rattle.liq_outside.specs.Disk.{Looked};
ghost use Rattle.liq_journal.specs.Parts.{IsPartOf};
ghost use Rattle.liq_journal.specs.Written.{Written};
ghost use Rattle.liq_disk_records.specs.Reading.{CountsReading, IsRecordNumber};
ghost use Rattle.liq_disk_records.specs.Replays.{IsOutcome, Replays};

use crate::answers::AcceptedFault;
use crate::reading::tested_command;
use liq_core_hinted::Guided;
use liq_disk_replay::{ReplayFault, redo};
use liq_journal::{Block, Journal};
use liq_outside::Disk;
use liq_types::Steps;
use std::sync::ledger::{Blank, Ledger};

// Makes the step of the record of this number.
fn redo_record<D: Disk, L: Ledger>(
    protocol: &mut Guided,
    journal: &mut Journal<D>,
    block: &mut Block,
    index: u64,
    steps: &mut Steps<L>,
) -> Result<(), AcceptedFault>
    requires there { IsRecordNumber journal.old.count index }
    requires part { IfSome (D.at journal.old.disk).seen (IsPartOf block.old) }
    ensures part { IfSome (D.at journal.new.disk).seen (IsPartOf block.new) }
    ensures looked { Looked D.at journal.old.disk journal.new.disk }
    ensures same { journal.new ≡ record journal.old { disk = journal.new.disk } }
    ensures replayed { (held : List ℕ) (w : Written) (s : State) (c : Command)
        → (D.at journal.old.disk).seen ≡ Some held
        → IsJournalOf journal.old.generation journal.old.start held w
        → slice_get w.commands (index - 1) ≡ Some c → StandsFor protocol.old s
        → IsOutcome s c index protocol.new result }
    ensures counted { OnOk result (protocol.new.records ≡ protocol.old.records + 1) }
    ensures generation { OnOk result (protocol.new.image.generation
        ≡ protocol.old.image.generation) }
    ensures cause { CountsReading result (D.at journal.old.disk).faults
        (D.at journal.new.disk).faults }
{
    // odd: match for ?
    let command = match tested_command(journal, block, index) {
        Ok(command) => command,
        Err(why) => return Err(why),
    };
    match redo(protocol, &mut (), &command, index, steps) {
        Ok(()) => Ok(()),
        Err(ReplayFault::Damaged(damage)) => Err(AcceptedFault::Damaged(damage)),
        Err(ReplayFault::NoMemory) => Err(AcceptedFault::NoMemory),
    }
}

/// Makes the steps of all of a journal's records, on the protocol with which it begins.
pub fn replay<D: Disk, L: Ledger>(
    protocol: &mut Guided,
    journal: &mut Journal<D>,
    blank: Blank,
) -> Result<(), AcceptedFault>
    requires name { blank.name ≡ L.name }
    requires parts { blank.parts ≡ L.parts }
    requires one { L.parts ≡ 1 }
    ensures looked { Looked D.at journal.old.disk journal.new.disk }
    ensures same { journal.new ≡ record journal.old { disk = journal.new.disk } }
    ensures replayed { (held : List ℕ) (w : Written) (s : State)
        → (D.at journal.old.disk).seen ≡ Some held
        → IsJournalOf journal.old.generation journal.old.start held w
        → length w.commands ≡ journal.old.count → StandsFor protocol.old s
        → Replays s w.commands protocol.new result }
    ensures counted { OnOk result (protocol.new.records ≡ protocol.old.records
        + journal.old.count) }
    ensures generation { OnOk result (protocol.new.image.generation
        ≡ protocol.old.image.generation) }
    ensures cause { CountsReading result (D.at journal.old.disk).faults
        (D.at journal.new.disk).faults }
{
    let mut steps = Steps::<L>::new(blank);
    let mut block = Block::new();
    for done in 0..journal.records() {
        // odd: match for ?
        match redo_record(protocol, journal, &mut block, done + 1, &mut steps) {
            Ok(()) => {}
            Err(fault) => return Err(fault),
        }
    }
    Ok(())
}
