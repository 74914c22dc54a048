//! What commands do to the Stability Pool, and when.

ghost use Rattle.std.specs.Prelude.{◌≡◌, ◌++◌, [], OnOk};
ghost use Rattle.liq_types.specs.State.{State};
ghost use Rattle.liq_core.specs.Core.{StandsFor};
ghost use Rattle.liq_text_rewards.specs.Telling.{notes_in};

use liq_core::{Planned, Protocol};
use liq_disk_replay::Onlooker;
use liq_types::{Info, NoMemory, PoolEvent, Query, Reply};
use std::alloc::Global;

/// The events of commands that are made again, each with its minute.
#[derive(Drop)]
pub(crate) struct Happened {
    events: Vec<(u64, PoolEvent)>,
}

impl Happened {
    pub(crate) fn new(alloc: Global) -> Happened
        ensures { result.events.items ≡ [] }
    {
        Happened {
            events: Vec::new(alloc),
        }
    }

    /// Each event behind its minute, in order.
    pub(crate) fn events(&self) -> &[(u64, PoolEvent)]
        ensures { result.now ≡ self.now.events.items }
    {
        self.events.as_slice()
    }
}

impl Onlooker for Happened {
    ghost use Rattle.liq_text_rewards.specs.Telling.{notes_in};

    type Note = (u64, PoolEvent);

    ghost notes = { λ happened. happened.events.items };

    ghost adds = { λ minute done events. notes_in minute events };

    fn see(&mut self, before: &Protocol, planned: &Planned) -> Result<(), NoMemory> {
        note(&mut self.events, minute_of(before), planned.events())
    }
}

/// Puts further events behind the others, with their minute.
fn note(
    notes: &mut Vec<(u64, PoolEvent)>,
    minute: u64,
    events: &[PoolEvent],
) -> Result<(), NoMemory>
    ensures { OnOk result (notes.new.items ≡ notes.old.items ++ notes_in minute events.now) }
{
    for event in events {
        let Ok(()) = notes.push((minute, *event)) else {
            return Err(NoMemory);
        };
    }
    Ok(())
}

/// The minute of now.
pub(crate) fn minute_of(protocol: &Protocol) -> u64
    ensures { (s : State) → StandsFor protocol.now s → result ≡ s.minute }
{
    match protocol.query(&Query::System) {
        Reply::Told(Info::System { words }) => words[1],
        _ => 0,
    }
}
