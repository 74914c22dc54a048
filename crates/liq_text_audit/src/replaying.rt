//! The replay of a list of commands, and what they do to the Stability Pool.

ghost use Rattle.std.specs.Prelude.{◌≡◌, ◌++◌, All, false, IfOk, IfErr, OnOk};
ghost use Rattle.liq_types.specs.declared.requests.Command.{Command};
ghost use Rattle.liq_types.specs.Image.{IsLimit};
ghost use Rattle.liq_types.specs.Verbs.{is_rotate};
ghost use Rattle.liq_text_audit.specs.Replaying.{IsReplayed, StopsWithin};

use crate::fault::ReviewFault;
use liq_core::{Planned, Protocol};
use liq_disk_replay::{Onlooker, replay_commands};
use liq_types::{Command, NoMemory, PoolEvent};
use std::alloc::Global;

/// A protocol after commands from an opening on, and what they did to the Stability Pool.
#[derive(Drop)]
pub(crate) struct Made {
    pub(crate) protocol: Protocol,
    pub(crate) events: Vec<PoolEvent>,
}

/// Makes the commands again, one after the other, from the opening under this limit on.
pub(crate) fn replayed(alloc: Global, limit: u64, commands: &[Command]) -> Result<Made, ReviewFault>
    requires limit { IsLimit limit }
    requires no_rotation { All (λ (c : Command). is_rotate c.call ≡ false) commands.now }
    ensures done { IfOk result (λ r. IsReplayed limit commands.now r.protocol r.events.items) }
    ensures fault { IfErr result (StopsWithin limit commands.now) }
{
    let mut seen = Seen {
        events: Vec::new(alloc),
    };
    let protocol = replay_commands(alloc, limit, commands, &mut seen)?;
    Ok(Made {
        protocol,
        events: seen.events,
    })
}

/// What was seen to happen to the Stability Pool.
#[derive(Drop)]
struct Seen {
    events: Vec<PoolEvent>,
}

impl Onlooker for Seen {
    type Note = PoolEvent;

    ghost notes = { λ seen. seen.events.items };

    ghost adds = { λ minute done events. events };

    fn see(&mut self, _before: &Protocol, planned: &Planned) -> Result<(), NoMemory> {
        append(&mut self.events, planned.events())
    }
}

/// Puts further events behind the others.
fn append(events: &mut Vec<PoolEvent>, more: &[PoolEvent]) -> Result<(), NoMemory>
    ensures { OnOk result (events.new.items ≡ events.old.items ++ more.now) }
{
    Ok(events.extend_from_slice(more)?)
}
