//! The word `gen`: a load is carried out, and a line tells where it leads.

ghost use Rattle.std.specs.Prelude.{◌≡◌, ◌≤◌, [], ◌∷◌, Contains};
ghost use Rattle.liq_outside.specs.Faults.{Rose};
ghost use Rattle.liq_types.specs.State.{opening};
ghost use Rattle.liq_sessions.specs.Generated.{generated};
ghost use Rattle.liq_word_exit.specs.Causes.{LastCause, WriteCause};
ghost use Rattle.liq_word_exit.specs.Statuses.{status_of};
ghost use Rattle.liq_word_exit.specs.Telling.{TellsAll};
ghost use Rattle.liq_word_gen.specs.Carrying.{WritesLine};
ghost use Rattle.liq_word_gen.specs.Load.{load, summary};

use crate::load::Load;
use liq_outside::Sink;
use liq_types::Steps;
use liq_word_exit::{Halt, tell_last, write_text};
use liq_word_line::COUNT_MOST;
use std::alloc::Global;
use std::sync::ledger::{Blank, Ledger};

/// Carries a load out on a ledger of its own, on which the steps are counted, and tells where it
/// leads.
pub fn tell_load<L: Ledger, K: Sink>(
    alloc: Global,
    seed: u64,
    count: u64,
    out: &mut K,
    blank: Blank,
) -> Result<(), Halt>
    requires few { count ≤ COUNT_MOST }
    requires name { blank.name ≡ L.name }
    requires parts { blank.parts ≡ L.parts }
    requires one { L.parts ≡ 1 }
    ensures told { TellsAll (summary (load opening (generated seed count))) result
        (Rose (K.at out.old).faults (K.at out.new).faults) (K.at out.old).held (K.at out.new).held }
    ensures ends { Contains (0 ∷ 4 ∷ 7 ∷ []) (status_of result) }
    ensures sink { LastCause result (K.at out.old).faults (K.at out.new).faults }
{
    let mut steps = Steps::<L>::new(blank);
    let end = write_load(alloc, seed, count, out, &mut steps);
    tell_last(out, end);
    end
}

/// Carries a load out, and writes its line.
#[tactic(auto, unfolding(crate::specs::Load::summary))]
fn write_load<K: Sink, L: Ledger>(
    alloc: Global,
    seed: u64,
    count: u64,
    out: &mut K,
    steps: &mut Steps<L>,
) -> Result<(), Halt>
    requires { count ≤ COUNT_MOST }
    ensures written { WritesLine (summary (load opening (generated seed count))) result
        (K.at out.old).held (K.at out.new).held }
    ensures sink { WriteCause result (K.at out.old).faults (K.at out.new).faults }
{
    let line = Load::carried_out(alloc, seed, count, steps)?.line(alloc)?;
    write_text(out, line.as_bytes())
}
