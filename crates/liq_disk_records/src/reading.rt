//! The commands of a journal, read back.
ghost use Rattle.std.specs.Prelude.{◌≡◌, false, IfOk, IfErr, IfSome};
ghost use Rattle.liq_outside.specs.Disk.{Looked};
ghost use Rattle.liq_journal.specs.Parts.{IsPartOf};
ghost use Rattle.liq_types.specs.Verbs.{is_rotate};
ghost use Rattle.liq_disk_records.specs.Reading.{CountsReading, IsCommandThere, IsReadableThere, IsRecordNumber};

use crate::answers::AcceptedFault;
use liq_journal::{Block, Journal};
use liq_outside::Disk;
use liq_types::Command;

// The command of the record of this number, which the opening has tested.
pub fn tested_command<D: Disk>(
    journal: &mut Journal<D>,
    block: &mut Block,
    index: u64,
) -> Result<Command, AcceptedFault>
    requires there { IsRecordNumber journal.old.count index }
    requires part { IfSome (D.at journal.old.disk).seen (IsPartOf block.old) }
    ensures part { IfSome (D.at journal.new.disk).seen (IsPartOf block.new) }
    ensures looked { Looked D.at journal.old.disk journal.new.disk }
    ensures same { journal.new ≡ record journal.old { disk = journal.new.disk } }
    ensures command { IfOk result (IsCommandThere D.at journal.old index) }
    ensures no_rotation { IfOk result (λ c. is_rotate c.call ≡ false) }
    ensures readable { IfErr result (IsReadableThere D.at journal.old index) }
    ensures cause { CountsReading result (D.at journal.old.disk).faults
        (D.at journal.new.disk).faults }
{
    Ok(journal.command(block, index)?)
}
