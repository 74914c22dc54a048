//! The words `state`, `report`, `audit`, `staking` and `rewards`: a text of what is on two disks,
//! told.

ghost use Rattle.std.specs.Prelude.{◌≡◌, [], None, Ok, Err};
ghost use Rattle.liq_outside.specs.Faults.{Rose};
ghost use Rattle.liq_disk_pair.specs.Pair.{commands_on};
ghost use Rattle.liq_word_exit.specs.Causes.{DisksGoOn, LastCause, WriteCause};
ghost use Rattle.liq_word_exit.specs.Disks.{DisksStay, IsFaultOfTelling, LeavesDamaged, LeavesOfRun, OfDamage, OfState};
ghost use Rattle.liq_word_exit.specs.Stops.{StopsDamaged};
ghost use Rattle.liq_word_state.specs.Told.{EndsSome, EndsTelling, HasFewLines, MayEnd, WritesSome, WritesTold};
ghost use Rattle.liq_word_state.specs.Whole.{OfJournal, OnlyLooks};

use crate::answers::{Asked, write_answers};
use crate::audit::write_audit;
use crate::report::write_report;
use crate::state::write_standing;
use liq_core::laws::{protocols_are_sound_states, protocols_stand};
use liq_disk_pair::laws::{commands_lead_to_the_state, journals_keep_their_limit};
use liq_outside::{Disk, Sink};
use liq_store::Store;
use liq_word_exit::{Ending, Halt, end_without_store, tell_last};
use std::alloc::Global;

/// Which text is told.
#[derive(Drop)]
pub enum Text {
    /// What stands on the disks: the replies to `system` and `pools`, the words of the Stability
    /// Pool, and the journal's generation with its records.
    State,
    /// Each trove and deposit as it stands, with the totals and the Stability Pool's words, as one
    /// text in JSON.
    Report,
    /// What the protocol gives each depositor beside its exact share, once the disks' commands are
    /// replayed from the opening. It is told of the first generation alone.
    Audit,
    /// What is answered to lines, once the disks' commands are replayed from the opening. It is
    /// told of the first generation alone.
    Answers(Asked),
}

/// Tells a text of two disks, and writes the last line where that stops. All of the text is made
/// before it is written.
pub fn tell_on<K: Sink, D: Disk>(
    alloc: Global,
    what: Text,
    out: &mut K,
    left: D,
    right: D,
) -> Ending<D>
    requires { HasFewLines what }
    // Of the state for which the disks stand, and of the commands that lead to it, the text is
    // told. They stand for it then.
    ensures told { OfState D.at left right
        (λ l r start. EndsTelling what start (commands_on l r) result.end
        (Rose (K.at out.old).faults (K.at out.new).faults) (K.at out.old).held (K.at out.new).held
        × DisksStay D.at result.end l r start result.left result.right) }
    // What a crash at some moment may have left of both is that of an opening.
    ensures past { OfState D.at left right (λ l r start. LeavesOfRun D.at left right
        (IsFaultOfTelling result.end) l r start [] result.left result.right) }
    // Of damaged disks nothing is told.
    ensures damaged { OfDamage D.at left right
        (λ l r side damage. StopsDamaged D.at left right l r side damage result.end
        (Rose (K.at out.old).faults (K.at out.new).faults) (K.at out.old).held (K.at out.new).held
        result.left result.right) }
    // Whatever the disks tell, it is told of some sound state and of some commands, or nothing is.
    ensures some { EndsSome what result.end (Rose (K.at out.old).faults (K.at out.new).faults)
        (K.at out.old).held (K.at out.new).held }
    ensures ends { MayEnd what result.end }
    ensures sink { LastCause result.end (K.at out.old).faults (K.at out.new).faults }
    ensures disks { DisksGoOn D.at left right result.end result.left result.right }
{
    let ending = tell(alloc, what, out, left, right);
    tell_last(out, ending.end);
    ending
}

/// Tells a text of two disks.
fn tell<K: Sink, D: Disk>(alloc: Global, what: Text, out: &mut K, left: D, right: D) -> Ending<D>
    requires { HasFewLines what }
    ensures told { OfState D.at left right (λ l r start.
        WritesTold what start (commands_on l r) result.end (K.at out.old).held (K.at out.new).held
        × DisksStay D.at result.end l r start result.left result.right) }
    ensures past { OfState D.at left right (λ l r start. LeavesOfRun D.at left right
        (IsFaultOfTelling result.end) l r start [] result.left result.right) }
    ensures damaged { OfDamage D.at left right (λ l r side damage. (out.new ≡ out.old)
        × LeavesDamaged D.at left right l r side damage result.end result.left result.right) }
    ensures some { WritesSome what result.end (K.at out.old).held (K.at out.new).held }
    ensures ends { MayEnd what result.end }
    ensures sink { WriteCause result.end (K.at out.old).faults (K.at out.new).faults }
    ensures disks { DisksGoOn D.at left right result.end result.left result.right }
{
    // odd: law called
    commands_lead_to_the_state();
    journals_keep_their_limit();
    let mut store = match Store::open(alloc, left, right) {
        Ok(store) => store,
        Err(fault) => return end_without_store(fault),
    };
    let end = write_told(alloc, &what, &mut store, out);
    let (left, right) = store.close();
    Ending { end, left, right }
}

/// Writes the text of a store.
fn write_told<K: Sink, D: Disk>(
    alloc: Global,
    what: &Text,
    store: &mut Store<D>,
    out: &mut K,
) -> Result<(), Halt>
    requires going { store.old.stopped ≡ None }
    requires few { HasFewLines what.now }
    ensures written { OfJournal D.at store.old (λ s commands.
        WritesTold what.now s commands result (K.at out.old).held (K.at out.new).held) }
    ensures some { WritesSome what.now result (K.at out.old).held (K.at out.new).held }
    ensures ends { MayEnd what.now result }
    ensures sink { WriteCause result (K.at out.old).faults (K.at out.new).faults }
    ensures disks { OnlyLooks D.at store.old store.new result }
{
    let protocol = store.protocol();
    // odd: law called
    protocols_stand(protocol);
    protocols_are_sound_states(protocol);
    match what {
        Text::State => write_standing(alloc, store.protocol(), out),
        Text::Report => write_report(alloc, store.protocol(), out),
        Text::Audit => write_audit(alloc, store, out),
        Text::Answers(asked) => write_answers(alloc, store, asked, out),
    }
}
