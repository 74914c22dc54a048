//! What each depositor has beside its exact share, told of the commands on two disks.

ghost use Rattle.std.specs.Prelude.{◌≡◌, ◌≢◌, All, ℕ, None, Ok, Err, false};
ghost use Rattle.liq_types.specs.declared.requests.Command.{Command};
ghost use Rattle.liq_types.specs.Image.{IsLimit};
ghost use Rattle.liq_types.specs.State.{State, opening_with};
ghost use Rattle.liq_types.specs.Verbs.{is_rotate};
ghost use Rattle.liq_disk_pair.specs.Replay.{replay};
ghost use Rattle.liq_text_audit.specs.Reviewed.{reviewed};
ghost use Rattle.liq_word_exit.specs.Causes.{WriteCause};
ghost use Rattle.liq_word_state.specs.declared.telling.Text.TheVariants as which;
ghost use Rattle.liq_word_state.specs.Reviewing.{halt_on};
ghost use Rattle.liq_word_state.specs.Told.{WritesSome};
ghost use Rattle.liq_word_state.specs.Whole.{OfJournal, OnlyLooks};
ghost use Rattle.liq_word_state.specs.Writing.{AuditHolds, WritesAudit, WritesText};

use crate::journal::whole_journal;
use liq_outside::{Disk, Sink};
use liq_store::{Side, Store};
use liq_text_audit::{ReviewFault, review};
use liq_types::Command;
use liq_word_exit::{Halt, write_text};
use std::alloc::Global;

/// Writes the audit of a store. It is of all commands since the opening, and a generation above the
/// first has not kept those before its checkpoint: there it stops.
pub fn write_audit<K: Sink, D: Disk>(
    alloc: Global,
    store: &mut Store<D>,
    out: &mut K,
) -> Result<(), Halt>
    requires going { store.old.stopped ≡ None }
    ensures written { OfJournal D.at store.old (λ s commands.
        WritesAudit s commands result (K.at out.old).held (K.at out.new).held) }
    ensures some { WritesSome which.Audit result (K.at out.old).held (K.at out.new).held }
    ensures no_source { result ≢ Err Halt.ReadFault }
    ensures no_line { (number : ℕ) → result ≢ Err (Halt.BadLine number) }
    ensures sink { WriteCause result (K.at out.old).faults (K.at out.new).faults }
    ensures disks { OnlyLooks D.at store.old store.new result }
{
    let whole = whole_journal(store)?;
    write_review(alloc, whole.limit, &whole.commands, whole.side, out)
}

/// Writes the review of commands that stand on the disk of this side, from the opening under this
/// limit on.
fn write_review<K: Sink>(
    alloc: Global,
    limit: u64,
    commands: &[Command],
    side: Side,
    out: &mut K,
) -> Result<(), Halt>
    requires limit { IsLimit limit }
    requires no_rotation { All (λ (c : Command). is_rotate c.call ≡ false) commands.now }
    ensures written { (s : State) → s.limit ≡ limit
        → replay 1 (opening_with limit) commands.now ≡ Ok s
        → WritesText (reviewed limit commands.now) result (K.at out.old).held (K.at out.new).held
        × AuditHolds result s commands.now }
    ensures some { WritesSome which.Audit result (K.at out.old).held (K.at out.new).held }
    ensures no_disk { result ≢ Err Halt.DiskFault }
    ensures no_source { result ≢ Err Halt.ReadFault }
    ensures no_line { (number : ℕ) → result ≢ Err (Halt.BadLine number) }
    ensures sink { WriteCause result (K.at out.old).faults (K.at out.new).faults }
{
    match review(alloc, limit, commands) {
        Ok(text) => write_text(out, &text),
        Err(fault) => Err(halt_on(side, fault)),
    }
}

/// Why commands that stand on the disk of this side have no review. Where one of them is refused,
/// its record is damaged.
fn halt_on(side: Side, fault: ReviewFault) -> Halt
    ensures { result ≡ halt_on side fault }
{
    match fault {
        ReviewFault::Refused { index, code: _ } => Halt::Damaged(side, index),
        ReviewFault::Limit { number } => Halt::Limit(number),
        ReviewFault::NoMemory => Halt::NoMemory,
    }
}
