//! Who looks on while commands are made again, or nobody.

ghost use Rattle.std.specs.Prelude.{◌≡◌, ◌++◌, ℕ, List, OnOk};
ghost use Rattle.liq_types.specs.declared.events.PoolEvent.{PoolEvent};
ghost use Rattle.liq_types.specs.declared.replies.Done.{Done};
ghost use Rattle.liq_types.specs.State.{State};
ghost use Rattle.liq_core.specs.Core.{StandsFor};
ghost use Rattle.liq_core.specs.Plan.{IsPlannedOn};
ghost use Rattle.liq_disk_replay.specs.Retold.{MaySee};

use liq_core::{Planned, Protocol};
use liq_types::NoMemory;

/// Notes something of each command that is made again.
pub trait Onlooker {
    type Note;

    /// What was noted, in order.
    ghost notes: { Self → List Self.Note };

    /// What is noted of a command that is made in this minute, is answered so and does this to the
    /// Stability Pool.
    ghost adds: { ℕ → Done → List PoolEvent → List Self.Note };

    /// Notes a command before it is made. All commands before it were noted, unless nothing is
    /// noted of any.
    fn see(&mut self, before: &Protocol, planned: &Planned) -> Result<(), NoMemory>
        requires come { MaySee adds before.now (notes self.old) }
        requires planned { IsPlannedOn before.now planned.now }
        ensures { OnOk result ((s : State) → StandsFor before.now s
            → notes self.new ≡ notes self.old ++ adds s.minute planned.now.done
            planned.now.events) };
}

/// Nobody looks on.
impl Onlooker for () {
    ghost use Rattle.std.specs.Prelude.{[]};

    type Note = ();

    ghost notes = { λ _. [] };

    ghost adds = { λ _ _ _. [] };

    fn see(&mut self, _before: &Protocol, _planned: &Planned) -> Result<(), NoMemory> {
        Ok(())
    }
}
