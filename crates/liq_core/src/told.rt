//! What others follow of a command: its events of the Stability Pool, and its changes of the
//! ordered list.

ghost use Rattle.std.specs.Prelude.{◌≡◌};
ghost use Rattle.liq_core.specs.Told.{events_in, changes_in};
ghost use Rattle.liq_core_lowest.specs.Victims.{told_of};

use liq_types::{ListChange, PoolEvent};

/// What a command does to the Stability Pool. A single event takes no memory.
#[derive(Drop)]
pub(crate) enum PoolEvents {
    Nothing,
    One([PoolEvent; 1]),
    Many(Vec<PoolEvent>),
}

impl PoolEvents {
    /// The events of a command that makes one or none.
    pub(crate) fn of(event: Option<PoolEvent>) -> PoolEvents
        ensures { events_in result ≡ told_of event }
    {
        match event {
            Some(event) => PoolEvents::One([event]),
            None => PoolEvents::Nothing,
        }
    }

    pub(crate) fn as_slice(&self) -> &[PoolEvent]
        ensures { result.now ≡ events_in self.now }
    {
        match self {
            PoolEvents::Nothing => &[],
            PoolEvents::One(event) => event,
            PoolEvents::Many(events) => events,
        }
    }
}

/// What a command does to the ordered list. One change or two take no memory.
#[derive(Drop)]
pub(crate) enum ListChanges {
    Nothing,
    One([ListChange; 1]),
    Two([ListChange; 2]),
    Many(Vec<ListChange>),
}

impl ListChanges {
    pub(crate) fn as_slice(&self) -> &[ListChange]
        ensures { result.now ≡ changes_in self.now }
    {
        match self {
            ListChanges::Nothing => &[],
            ListChanges::One(change) => change,
            ListChanges::Two(changes) => changes,
            ListChanges::Many(changes) => changes,
        }
    }
}
