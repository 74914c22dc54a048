//! All commands of a store's journal.

ghost use Rattle.std.specs.Prelude.{◌≡◌, ◌≢◌, ◌⊎◌, All, List, ℕ, Some, None, Ok, Err, IfOk, IfErr, IsSome, false};
ghost use Rattle.liq_types.specs.declared.requests.Command.{Command};
ghost use Rattle.liq_types.specs.Image.{IsLimit};
ghost use Rattle.liq_types.specs.Verbs.{is_rotate};
ghost use Rattle.liq_journal.specs.declared.damage.Damage.{Damage};
ghost use Rattle.liq_journal.specs.Written.{Open, Written, found_on};
ghost use Rattle.liq_disk_pair.specs.declared.side.Side.{Side};
ghost use Rattle.liq_disk_pair.specs.Sides.{has_odd};
ghost use Rattle.liq_store.specs.Answering.{IsUnreadable};
ghost use Rattle.liq_store.specs.Stored.{taken_disk};
ghost use Rattle.liq_word_state.specs.Told.{FindsNone};
ghost use Rattle.liq_word_state.specs.Whole.{FindsWhole, OfJournal, OnlyLooks, StopsWhole};

use liq_core::Protocol;
use liq_core::laws::protocols_are_sound_states;
use liq_outside::Disk;
use liq_store::{AcceptedFault, Side, Store};
use liq_types::Command;
use liq_word_exit::{Halt, has_all_commands};

/// All commands since the opening under a limit, as they stand on the disk of a side.
#[derive(Drop)]
pub(crate) struct Whole {
    pub(crate) limit: u64,
    pub(crate) side: Side,
    pub(crate) commands: Vec<Command>,
}

/// All commands of a store since the opening. A generation above the first has not kept those
/// before its checkpoint: there it stops.
pub(crate) fn whole_journal<D: Disk>(store: &mut Store<D>) -> Result<Whole, Halt>
    requires going { store.old.stopped ≡ None }
    ensures found { OfJournal D.at store.old (λ s commands. FindsWhole s commands result) }
    // They stand on the disk that the store took.
    ensures side { IfOk result (λ whole. whole.side ≡ store.old.side) }
    ensures limit { IfOk result (λ whole. IsLimit whole.limit) }
    ensures no_rotation { IfOk result
        (λ whole. All (λ (c : Command). is_rotate c.call ≡ false) whole.commands.items) }
    ensures stops { IfErr result StopsWhole }
    ensures no_source { result ≢ Err Halt.ReadFault }
    ensures no_line { (number : ℕ) → result ≢ Err (Halt.BadLine number) }
    ensures no_sink { result ≢ Err Halt.WriteFault }
    ensures disks { OnlyLooks D.at store.old store.new result }
{
    let generation = store.protocol().generation();
    if !has_all_commands(generation) {
        // odd: law called
        protocols_are_sound_states(store.protocol());
        return Err(Halt::Rotated(generation));
    }
    let limit = limit_of(store.protocol());
    let side = store.side();
    let commands = kept_commands(store, side)?;
    Ok(Whole {
        limit,
        side,
        commands,
    })
}

/// The limit of a protocol's state, which is one of two.
fn limit_of(protocol: &Protocol) -> u64
    ensures known { result ≡ protocol.now.image.limit }
    ensures one_of_two { IsLimit result }
{
    // odd: law called
    protocols_are_sound_states(protocol);
    protocol.limit()
}

/// The commands that a store keeps, on the disk of this side.
fn kept_commands<D: Disk>(store: &mut Store<D>, side: Side) -> Result<Vec<Command>, Halt>
    requires going { store.old.stopped ≡ None }
    ensures commands { (held : List ℕ) (w : Written)
        → (D.at (taken_disk store.old)).seen ≡ Some held
        → found_on (has_odd store.old.side) held ≡ Open w
        → IfOk result (λ commands. commands.items ≡ w.commands) }
    ensures no_rotation { IfOk result
        (λ commands. All (λ (c : Command). is_rotate c.call ≡ false) commands.items) }
    ensures none { IfErr result (λ halt. FindsNone (Err halt)) }
    // Where the disk tells its bytes no record is unreadable.
    ensures fault { IsSome (D.at (taken_disk store.old)).seen
        → IfErr result (λ halt. (halt ≡ Halt.NoMemory) ⊎ (halt ≡ Halt.DiskFault)) }
    // A record that is none is told as damage of the disk of this side, at its number.
    ensures damaged { (which : Side) (number : ℕ) → result ≡ Err (Halt.Damaged which number)
        → (which ≡ side) × ((damage : Damage) × (number ≡ damage.index)
        × IsUnreadable store.old.core.image.generation store.old.start store.old.core.records
        (AcceptedFault.Damaged damage)) }
    ensures no_source { result ≢ Err Halt.ReadFault }
    ensures no_line { (number : ℕ) → result ≢ Err (Halt.BadLine number) }
    ensures no_sink { result ≢ Err Halt.WriteFault }
    ensures disks { OnlyLooks D.at store.old store.new result }
{
    match store.accepted() {
        Ok(commands) => Ok(commands),
        Err(AcceptedFault::DiskFault) => Err(Halt::DiskFault),
        Err(AcceptedFault::Damaged(damage)) => Err(Halt::Damaged(side, damage.index)),
        Err(AcceptedFault::NoMemory) => Err(Halt::NoMemory),
    }
}
