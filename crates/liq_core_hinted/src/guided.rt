//! A protocol, and beside it the guide of its ordered list, which is never let go.

ghost use Rattle.std.specs.Prelude.{◌≡◌, ◌≤◌, ◌+◌, ℕ, length, IfOk, OnErr, OnOk};
ghost use Rattle.liq_types.specs.Image.{IsLimit};
ghost use Rattle.liq_types.specs.State.{State, opening_with};
ghost use Rattle.liq_types.specs.declared.requests.Command.{Command};
ghost use Rattle.liq_types.specs.declared.requests.Request.TheVariants.{Ask};
ghost use Rattle.liq_core.specs.Core.{SameContent, StandsFor};
ghost use Rattle.liq_core.specs.Plan.{HasRoom, IsPlannedOn, MakesStep, RepliesByStep};
ghost use Rattle.liq_core.specs.Steps.{last_put, used_hint, words_of};
ghost use Rattle.liq_list_index.specs.Followed.{all_listed};
ghost use Rattle.liq_trove_moves.specs.Steps.{TakesFew};
ghost use Rattle.liq_core.specs.Turn.{Plans};
ghost use Rattle.liq_rule_step.specs.Step.{after, step};
ghost use Rattle.liq_rule_step.specs.Verbs.{unhinted};
ghost use Rattle.liq_core_hinted.specs.Hints.{IsExact, hint_used};

use crate::hints::Hints;
use crate::list_guide::ListGuide;
use liq_core::laws::{lists_stand, protocols_are_sound_states, protocols_stand};
use liq_core::{PlanFault, Planned, Protocol, Turn};
use liq_types::{Command, Done, Hint, NoMemory, Query, Reply, Steps};
use std::alloc::Global;
use std::marker::Model;
use std::sync::ledger::Ledger;

/// A protocol whose list is asked with the hint of its guide, which is never let go: where there is
/// no memory for the guide there is none for the protocol, or for the command that it would follow.
/// Contracts see the protocol: no hint changes it.
pub struct Guided {
    protocol: Protocol,
    guide: ListGuide,
}

// odd: drop written out
impl Drop for Guided {
    fn drop(self) {
        let Guided {
            protocol: _,
            guide: _,
        } = self;
    }
}

impl Model for Guided {
    ghost use Rattle.liq_core.specs.Core.{Core};
    ghost use Rattle.liq_core_hinted.specs.ListGuides.{IsGuideOf};

    ghost Value = { Core };

    ghost view = { λ g. g.protocol };

    ghost invariant = { λ g. IsGuideOf g.protocol.list g.guide };
}

impl Guided {
    /// The protocol as it opens under this limit.
    pub fn with_limit(alloc: Global, limit: u64) -> Guided
        requires { IsLimit limit }
        ensures { StandsFor result (opening_with limit) }
    {
        let protocol = Protocol::with_limit(alloc, limit);
        // odd: law called
        lists_stand(&protocol);
        Guided {
            protocol,
            guide: ListGuide::new(alloc),
        }
    }

    /// A protocol, with a guide of its list. There may be no memory for that.
    pub fn of(alloc: Global, protocol: Protocol) -> Result<Guided, NoMemory>
        ensures { IfOk result (λ guided. guided ≡ protocol) }
    {
        let guide = ListGuide::of(alloc, &protocol)?;
        Ok(Guided { protocol, guide })
    }

    /// Puts the opening under this limit in place of the opening under another.
    pub fn begin_under(&mut self, alloc: Global, limit: u64)
        requires { IsLimit limit }
        ensures { (before : ℕ) → StandsFor self.old (opening_with before)
            → StandsFor self.new (opening_with limit) }
    {
        if self.protocol.limit() != limit {
            *self = Guided::with_limit(alloc, limit);
        }
    }

    /// The protocol alone.
    pub fn protocol(&self) -> &Protocol
        ensures { result.now ≡ self.now }
    {
        &self.protocol
    }

    /// The protocol, without its guide.
    pub fn into_protocol(self) -> Protocol
        ensures { result ≡ self }
    {
        let Guided { protocol, guide: _ } = self;
        protocol
    }

    /// The generation of its journal.
    pub fn generation(&self) -> u64
        ensures { result ≡ self.now.image.generation }
    {
        self.protocol.generation()
    }

    /// How many commands it has accepted in its generation.
    pub fn records(&self) -> u64
        ensures { result ≡ self.now.records }
    {
        self.protocol.records()
    }

    /// The reply to a query.
    pub fn query(&self, query: &Query) -> Reply
        ensures { (s : State) → StandsFor self.now s → (step s (Ask query.now)).1 ≡ result }
    {
        self.protocol.query(query)
    }

    /// Plans a command.
    pub fn plan(&self, command: &Command) -> Result<Turn, PlanFault>
        ensures { (s : State) → StandsFor self.now s → Plans s command.now result }
    {
        self.protocol.plan(command)
    }

    /// Makes room for what the planned command writes. The guide follows it, and says between whom
    /// the account will stand that it puts last, if it puts any.
    pub fn reserve(&mut self, planned: &Planned) -> Result<Option<Hint>, NoMemory>
        ensures same { SameContent self.old self.new }
        ensures room { OnOk result (HasRoom self.new planned.now) }
        // The hint is tight for the list as it is once the command is made.
        ensures exact { IfOk result (IsExact (all_listed self.old.list planned.now.changes)
            (last_put planned.now.changes)) }
    {
        // odd: law called
        protocols_are_sound_states(&self.protocol);
        lists_stand(&self.protocol);
        protocols_stand(&self.protocol);
        self.protocol.reserve(planned)?;
        self.guide.follow(&self.protocol, planned.list_changes())
    }

    /// Makes the planned command's step, for which room was reserved. It is planned without its own
    /// hint words, which stand among the hints: of these one is used.
    pub fn apply<L: Ledger>(
        &mut self,
        planned: &Planned,
        hints: &Hints,
        steps: &mut Steps<L>,
    ) -> Done
        requires planned { IsPlannedOn self.old planned.now }
        requires room { HasRoom self.old planned.now }
        ensures state { MakesStep self.old planned.now.command self.new }
        ensures reply { RepliesByStep self.old planned.now.command result }
        ensures list { self.new.list ≡ all_listed self.old.list planned.now.changes }
        ensures few { TakesFew self.new.list
            (used_hint (words_of planned.now.command.call) (hint_used hints.now))
            (last_put planned.now.changes) steps.old steps.new }
        ensures any { steps.new ≤ steps.old + (length self.old.list + 4) }
    {
        // odd: law called
        protocols_are_sound_states(&self.protocol);
        lists_stand(&self.protocol);
        protocols_stand(&self.protocol);
        let is_followed = self.guide.has_followed(planned.list_changes());
        let done = self.protocol.apply_planned(planned, &hints.used(), steps);
        self.guide.settle(is_followed);
        done
    }

    /// Makes room for what the planned command writes, and then its step, with the guide's hint
    /// alone. Where there is no memory all is as before. Where the command has no hint words, the
    /// place of its trove takes at most four steps, however long the list is.
    pub fn reserve_and_apply<L: Ledger>(
        &mut self,
        planned: &Planned,
        steps: &mut Steps<L>,
    ) -> Result<(), NoMemory>
        requires { IsPlannedOn self.old planned.now }
        ensures made { OnOk result ((s : State) → StandsFor self.old s
            → StandsFor self.new (after s planned.now.command)) }
        ensures same { OnErr result (SameContent self.old self.new) }
        ensures few { (c : Command) → planned.now.command ≡ unhinted c
            → OnOk result (steps.new ≤ steps.old + 4) }
    {
        let exact = self.reserve(planned)?;
        let _ = self.apply(planned, &Hints::of_guide(exact), steps);
        Ok(())
    }
}
