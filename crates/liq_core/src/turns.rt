//! What planning a command gives: a reply that was kept, or what the step will make and how it will
//! be answered.

ghost use Rattle.std.specs.Prelude.{◌≡◌};
ghost use Rattle.liq_core.specs.declared.told.PoolEvents.TheVariants as events;
ghost use Rattle.liq_core.specs.declared.told.ListChanges.TheVariants as changes;

use crate::effects::Effect;
use crate::told::{ListChanges, PoolEvents};
use liq_types::{Command, Done, ListChange, PoolEvent, Refusal};
use std::marker::Model;

/// What an allowed call comes to: its reply, what it does, and what others follow of it.
#[derive(Drop)]
pub(crate) struct Forecast {
    pub(crate) done: Done,
    pub(crate) effect: Effect,
    pub(crate) events: PoolEvents,
    pub(crate) changes: ListChanges,
}

impl Forecast {
    /// The forecast of a call that changes neither the Stability Pool nor the list.
    pub(crate) fn plain(done: Done, effect: Effect) -> Forecast
        ensures { result ≡ record {
          done = done;
          effect = effect;
          events = events.Nothing;
          changes = changes.Nothing;
        } }
    {
        Forecast {
            done,
            effect,
            events: PoolEvents::Nothing,
            changes: ListChanges::Nothing,
        }
    }
}

/// A command that will be accepted, with its reply. It holds for the protocol that planned it, as
/// long as that stays.
#[derive(Drop)]
pub struct Planned {
    pub(crate) command: Command,
    pub(crate) forecast: Forecast,
}

impl Model for Planned {
    ghost use Rattle.liq_core.specs.Plan.{Plan, IsSoundPlan, plan_of};

    ghost Value = { Plan };

    ghost view = { λ p. plan_of p.command p.forecast };

    ghost invariant = { λ p. IsSoundPlan (plan_of p.command p.forecast) };
}

impl Planned {
    /// The reply that the command will have.
    pub fn done(&self) -> &Done
        ensures { result.now ≡ self.now.done }
    {
        &self.forecast.done
    }

    /// What the command will do to the Stability Pool, in order.
    pub fn events(&self) -> &[PoolEvent]
        ensures { result.now ≡ self.now.events }
    {
        self.forecast.events.as_slice()
    }

    /// What the command will do to the ordered list, in order.
    pub fn list_changes(&self) -> &[ListChange]
        ensures { result.now ≡ self.now.changes }
    {
        self.forecast.changes.as_slice()
    }
}

/// What becomes of a command that is not refused.
#[derive(Drop)]
pub enum Turn {
    /// It was accepted before, and this is the reply that was kept. It changes nothing.
    Again(Done),
    /// It is new.
    New(Planned),
}

/// Why a command cannot be planned. Nothing has changed.
#[derive(Drop)]
pub enum PlanFault {
    /// It is refused.
    No(Refusal),
    /// There is no memory for the list of troves that it plans. It passed all that is tested
    /// without the list.
    NoMemory,
}
