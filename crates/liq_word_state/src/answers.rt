//! Lines that are answered beside the commands on two disks: those of stakers, and those that name
//! front ends.

ghost use Rattle.std.specs.Prelude.{◌≡◌, ◌≢◌, All, ℕ, None, Ok, Err, false, IfOk, OnOk};
ghost use Rattle.liq_types.specs.declared.requests.Command.{Command};
ghost use Rattle.liq_types.specs.Image.{IsLimit};
ghost use Rattle.liq_types.specs.State.{State, opening_with};
ghost use Rattle.liq_journal.specs.declared.damage.Damage.{Damage};
ghost use Rattle.liq_types.specs.Verbs.{is_rotate};
ghost use Rattle.liq_disk_pair.specs.Replay.{replay};
ghost use Rattle.liq_word_exit.specs.Causes.{WriteCause};
ghost use Rattle.liq_word_state.specs.declared.telling.Text.TheVariants as which;
ghost use Rattle.liq_word_state.specs.Answers.{AreFew, asked_text};
ghost use Rattle.liq_word_state.specs.Told.{WritesSome};
ghost use Rattle.liq_word_state.specs.Whole.{OfJournal, OnlyLooks};
ghost use Rattle.liq_word_state.specs.Writing.{WritesAnswers, WritesText};

use crate::journal::whole_journal;
use liq_disk_replay::ReplayFault;
use liq_fees::StakeLine;
use liq_outside::{Disk, Sink};
use liq_rewards::TagLine;
use liq_store::{Side, Store};
use liq_text_rewards::rewarded;
use liq_text_staking::staked;
use liq_types::Command;
use liq_word_exit::{Halt, write_text};
use std::alloc::Global;

/// Lines, all of one kind.
#[derive(Drop)]
pub enum Asked {
    /// Stakers ask for changes of their stakes, and share the fees of the commands.
    Stakes(Vec<StakeLine>),
    /// Depositors name front ends, to which they give a part of their rewards.
    Tags(Vec<TagLine>),
}

/// Writes what is answered to lines beside the commands of a store. They are all commands since the
/// opening, and a generation above the first has not kept those before its checkpoint: there it
/// stops.
pub fn write_answers<K: Sink, D: Disk>(
    alloc: Global,
    store: &mut Store<D>,
    asked: &Asked,
    out: &mut K,
) -> Result<(), Halt>
    requires going { store.old.stopped ≡ None }
    requires few { AreFew asked.now }
    ensures written { OfJournal D.at store.old (λ s commands.
        WritesAnswers s commands asked.now result (K.at out.old).held (K.at out.new).held) }
    ensures some { WritesSome (which.Answers asked.now) result (K.at out.old).held
        (K.at out.new).held }
    ensures no_source { result ≢ Err Halt.ReadFault }
    ensures no_line { (number : ℕ) → result ≢ Err (Halt.BadLine number) }
    ensures sink { WriteCause result (K.at out.old).faults (K.at out.new).faults }
    ensures disks { OnlyLooks D.at store.old store.new result }
{
    let whole = whole_journal(store)?;
    write_answered(alloc, whole.limit, &whole.commands, asked, whole.side, out)
}

/// Writes what is answered to lines beside commands that stand on the disk of this side, from the
/// opening under this limit on.
fn write_answered<K: Sink>(
    alloc: Global,
    limit: u64,
    commands: &[Command],
    asked: &Asked,
    side: Side,
    out: &mut K,
) -> Result<(), Halt>
    requires limit { IsLimit limit }
    requires no_rotation { All (λ (c : Command). is_rotate c.call ≡ false) commands.now }
    requires few { AreFew asked.now }
    ensures written { (s : State) → replay 1 (opening_with limit) commands.now ≡ Ok s
        → WritesText (Ok (asked_text asked.now limit commands.now)) result (K.at out.old).held
        (K.at out.new).held }
    ensures some { WritesSome (which.Answers asked.now) result (K.at out.old).held
        (K.at out.new).held }
    ensures no_disk { result ≢ Err Halt.DiskFault }
    ensures no_source { result ≢ Err Halt.ReadFault }
    ensures no_line { (number : ℕ) → result ≢ Err (Halt.BadLine number) }
    ensures sink { WriteCause result (K.at out.old).faults (K.at out.new).faults }
{
    match answers_text(alloc, limit, commands, asked) {
        Ok(text) => write_text(out, &text),
        Err(ReplayFault::Damaged(damage)) => Err(Halt::Damaged(side, damage.index)),
        Err(ReplayFault::NoMemory) => Err(Halt::NoMemory),
    }
}

/// What is answered to lines beside commands from the opening under this limit on, as a text.
fn answers_text(
    alloc: Global,
    limit: u64,
    commands: &[Command],
    asked: &Asked,
) -> Result<Vec<u8>, ReplayFault>
    requires limit { IsLimit limit }
    requires no_rotation { All (λ (c : Command). is_rotate c.call ≡ false) commands.now }
    requires few { AreFew asked.now }
    ensures text { IfOk result (λ text. text.items ≡ asked_text asked.now limit commands.now) }
    ensures damaged { (damage : Damage) → result ≡ Err (ReplayFault.Damaged damage)
        → replay 1 (opening_with limit) commands.now ≡ Err damage }
    ensures whole { OnOk result
        ((damage : Damage) → replay 1 (opening_with limit) commands.now ≡ Err damage → ⊥) }
{
    match asked {
        Asked::Stakes(lines) => staked(alloc, limit, commands, lines),
        Asked::Tags(lines) => rewarded(alloc, limit, commands, lines),
    }
}
