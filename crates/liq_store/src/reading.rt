//! The accepted commands, read back from the disk that is taken.
ghost use Rattle.std.specs.Prelude.{◌≡◌, ◌≤◌, Some, List, ℕ, length, take, false, IfOk, IfErr, IfSome};
ghost use Rattle.std.specs.List.{All};
ghost use Rattle.liq_types.specs.declared.requests.Command.{Command};
ghost use Rattle.liq_journal.specs.Bodies.{IsJournalOf};
ghost use Rattle.liq_journal.specs.Parts.{IsPartOf};
ghost use Rattle.liq_outside.specs.Disk.{Looked};
ghost use Rattle.liq_types.specs.Verbs.{is_rotate};
ghost use Rattle.liq_journal.specs.Written.{Written};
ghost use Rattle.liq_disk_records.specs.Reading.{CountsReading, IsCommandThere, IsReadable, IsReadableThere, IsRecordNumber};
ghost use Rattle.liq_store.specs.Answering.{IsUnreadable};
ghost use Rattle.liq_store.specs.Within.{HasRecords};

use liq_disk_records::AcceptedFault;
use liq_journal::{Block, Journal};
use liq_outside::Disk;
use liq_types::Command;
use std::alloc::Global;

// The command of the record of this number, read through a block. The opening has tested it.
pub fn read_command<D: Disk>(
    journal: &mut Journal<D>,
    block: &mut Block,
    index: u64,
) -> Result<Command, AcceptedFault>
    requires there { IsRecordNumber journal.old.count index }
    requires part { IfSome (D.at journal.old.disk).seen (IsPartOf block.old) }
    ensures part { IfSome (D.at journal.new.disk).seen (IsPartOf block.new) }
    ensures looked { Looked D.at journal.old.disk journal.new.disk }
    ensures same { journal.new ≡ record journal.old { disk = journal.new.disk } }
    ensures command { IfOk result (IsCommandThere D.at journal.old index) }
    ensures no_rotation { IfOk result (λ c. is_rotate c.call ≡ false) }
    ensures damaged { IfErr result
        (IsUnreadable journal.old.generation journal.old.start journal.old.count) }
    ensures readable { IfErr result (IsReadableThere D.at journal.old index) }
    ensures cause { CountsReading result (D.at journal.old.disk).faults
        (D.at journal.new.disk).faults }
{
    Ok(journal.command(block, index)?)
}

// The commands of all of a journal's records, in order.
pub fn read_commands<D: Disk>(
    alloc: Global,
    journal: &mut Journal<D>,
) -> Result<Vec<Command>, AcceptedFault>
    ensures looked { Looked D.at journal.old.disk journal.new.disk }
    ensures same { journal.new ≡ record journal.old { disk = journal.new.disk } }
    ensures commands { IfOk result (λ list. (held : List ℕ) (w : Written)
        → (D.at journal.old.disk).seen ≡ Some held
        → IsJournalOf journal.old.generation journal.old.start held w
        → journal.old.count ≤ length w.commands → list.items ≡ take journal.old.count w.commands) }
    ensures count { IfOk result (λ list. length list.items ≡ journal.old.count) }
    ensures no_rotation { IfOk result (λ list. All
        (λ (c : Command). is_rotate c.call ≡ false) list.items) }
    ensures damaged { IfErr result
        (IsUnreadable journal.old.generation journal.old.start journal.old.count) }
    ensures readable { IfErr result (λ why. (held : List ℕ)
        → (D.at journal.old.disk).seen ≡ Some held
        → HasRecords journal.old.generation journal.old.start journal.old.count held
        → IsReadable why) }
    ensures cause { CountsReading result (D.at journal.old.disk).faults
        (D.at journal.new.disk).faults }
{
    let mut commands = Vec::new(alloc);
    let mut block = Block::new();
    for done in 0..journal.records() {
        // odd: match for ?
        let command = match read_command(journal, &mut block, done + 1) {
            Ok(command) => command,
            Err(why) => return Err(why),
        };
        match commands.push(command) {
            Ok(()) => {}
            Err(_) => return Err(AcceptedFault::NoMemory),
        }
    }
    Ok(commands)
}
