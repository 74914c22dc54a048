//! A command, made again: it is shown to the onlooker, and then made. And a list of them, one after
//! the other.

ghost use Rattle.std.specs.Prelude.{◌≡◌, ◌≤◌, ◌+◌, ◌++◌, All, [], false, Err, IfOk, OnOk};
ghost use Rattle.liq_types.specs.declared.requests.Command.{Command};
ghost use Rattle.liq_types.specs.Image.{IsLimit};
ghost use Rattle.liq_types.specs.State.{State, opening_with};
ghost use Rattle.liq_core.specs.Core.{StandsFor};
ghost use Rattle.liq_journal.specs.declared.damage.Damage.{Damage};
ghost use Rattle.liq_types.specs.Verbs.{is_rotate};
ghost use Rattle.liq_disk_pair.specs.Replay.{replay};
ghost use Rattle.liq_disk_replay.specs.Retold.{IsRetold, MaySee, noted_of};
ghost use Rattle.liq_disk_replay.specs.Making.{Replays};

use crate::fault::ReplayFault;
use crate::onlooker::Onlooker;
use liq_core::laws::protocols_stand;
use liq_core::{PlanFault, Protocol, Turn, unhinted};
use liq_core_hinted::Guided;
use liq_journal::{Damage, What};
use liq_types::{Command, Steps, code_of};
use std::alloc::Global;
use std::marker::Brand;
use std::sync::ledger::{Blank, Ledger};

/// Makes the commands, one after the other, on a protocol of their own that begins with the opening
/// under this limit, and gives the protocol after them. The onlooker notes each.
/// [`ReplayFault::Damaged`] comes exactly where the replay does not accept a command, where there
/// is memory.
pub fn replay_commands<O: Onlooker>(
    alloc: Global,
    limit: u64,
    commands: &[Command],
    onlooker: &mut O,
) -> Result<Protocol, ReplayFault>
    requires limit { IsLimit limit }
    // The commands of one generation hold no rotation.
    requires no_rotation { All (λ (c : Command). is_rotate c.call ≡ false) commands.now }
    requires fresh { O.notes onlooker.old ≡ [] }
    ensures done { IfOk result (λ protocol. IsRetold O.adds limit commands.now protocol
        (O.notes onlooker.new)) }
    ensures damaged { (damage : Damage) → result ≡ Err (ReplayFault.Damaged damage)
        → replay 1 (opening_with limit) commands.now ≡ Err damage }
{
    // odd: steps counted
    replay_commands_on::<O, Brand>(alloc, limit, commands, onlooker, Blank::new(1))
}

/// The same, on a ledger of its own.
fn replay_commands_on<O: Onlooker, L: Ledger>(
    alloc: Global,
    limit: u64,
    commands: &[Command],
    onlooker: &mut O,
    blank: Blank,
) -> Result<Protocol, ReplayFault>
    requires limit { IsLimit limit }
    requires no_rotation { All (λ (c : Command). is_rotate c.call ≡ false) commands.now }
    requires fresh { O.notes onlooker.old ≡ [] }
    requires name { blank.name ≡ L.name }
    requires parts { blank.parts ≡ L.parts }
    requires one { L.parts ≡ 1 }
    ensures done { IfOk result (λ protocol. IsRetold O.adds limit commands.now protocol
        (O.notes onlooker.new)) }
    ensures damaged { (damage : Damage) → result ≡ Err (ReplayFault.Damaged damage)
        → replay 1 (opening_with limit) commands.now ≡ Err damage }
{
    let mut steps = Steps::<L>::new(blank);
    let mut protocol = Guided::with_limit(alloc, limit);
    for (i, command) in commands.iter().enumerate() {
        redo(&mut protocol, onlooker, command, i as u64 + 1, &mut steps)?;
    }
    Ok(protocol.into_protocol())
}

/// Makes a command again, which has this number among the commands: it is shown to the onlooker,
/// and then its step is made, without its own hint words. Where it makes none the protocol is as
/// before. However long the list is, the place of its trove takes at most four steps.
pub fn redo<O: Onlooker, L: Ledger>(
    protocol: &mut Guided,
    onlooker: &mut O,
    command: &Command,
    index: u64,
    steps: &mut Steps<L>,
) -> Result<(), ReplayFault>
    requires { MaySee O.adds protocol.old (O.notes onlooker.old) }
    ensures replayed { (s : State) → StandsFor protocol.old s
        → Replays s command.now index protocol.new result }
    ensures noted { OnOk result ((s : State) → StandsFor protocol.old s
        → O.notes onlooker.new ≡ O.notes onlooker.old ++ noted_of O.adds s command.now.call) }
    ensures counted { is_rotate command.now.call ≡ false
        → OnOk result (protocol.new.records ≡ protocol.old.records + 1) }
    ensures generation { is_rotate command.now.call ≡ false
        → OnOk result (protocol.new.image.generation ≡ protocol.old.image.generation) }
    ensures few { OnOk result (steps.new ≤ steps.old + 4) }
{
    // odd: law called
    protocols_stand(protocol.protocol());
    let planned = match protocol.plan(&unhinted(command)) {
        Ok(Turn::New(planned)) => planned,
        Ok(Turn::Again(_)) => return Err(damaged(index, 0)),
        Err(PlanFault::No(refusal)) => return Err(damaged(index, code_of(&refusal))),
        Err(PlanFault::NoMemory) => return Err(ReplayFault::NoMemory),
    };
    onlooker.see(protocol.protocol(), &planned)?;
    protocol.reserve_and_apply(&planned, steps)?;
    Ok(())
}

/// The command of this number is not accepted, for this reason.
fn damaged(index: u64, code: u8) -> ReplayFault
    ensures { result ≡ ReplayFault.Damaged (record { index = index; what = What.Replay code }) }
{
    ReplayFault::Damaged(Damage {
        index,
        what: What::Replay { code },
    })
}
