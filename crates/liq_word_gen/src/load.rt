//! A generated load, carried out on a protocol of its own.

ghost use Rattle.std.specs.Prelude.{◌≡◌, ◌≤◌, ◌+◌, ◌^◌, ◌∷◌, [], ℕ, IfOk, OnOk};
ghost use Rattle.std.specs.String.{string_bytes};
ghost use Rattle.liq_types.specs.declared.requests.Request.TheVariants.{Ask};
ghost use Rattle.liq_types.specs.State.{State, opening};
ghost use Rattle.liq_types.specs.Totals.{total_debt};
ghost use Rattle.liq_stability.specs.Words.{pool_words};
ghost use Rattle.liq_audit.specs.Auditable.{offsets_in};
ghost use Rattle.liq_core.specs.Core.{StandsFor, state_of};
ghost use Rattle.liq_rule_step.specs.Step.{run, step, next_number};
ghost use Rattle.liq_sessions.specs.Generated.{generated};
ghost use Rattle.liq_word_line.specs.declared.words.TheConstants.{COUNT_MOST};
ghost use Rattle.liq_word_gen.specs.Carrying.{AreWithin, IsNumbered, counts, next_command, plus, told};
ghost use Rattle.liq_word_gen.specs.Load.{load};

use liq_core::laws::protocols_stand;
use liq_core::{PlanFault, Protocol, Turn};
use liq_rule_step::laws::commands_make_few_events;
use liq_sessions::generate;
use liq_types::{Call, Command, Hint, Info, NoMemory, PoolEvent, Query, Reply, Steps};
use std::alloc::Global;
use std::sync::ledger::Ledger;

/// The client that asks.
const CLIENT: u32 = 1;

/// What is counted of commands.
#[derive(Clone, Copy)]
pub struct Counts {
    pub accepted: u64,
    pub refused: u64,
    /// Offsets that the Stability Pool made.
    pub offsets: u64,
}

/// Where a load has come to.
#[derive(Drop)]
pub struct Load {
    protocol: Protocol,
    counts: Counts,
}

impl Load {
    /// Carries out the calls of a seed, so many of them drawn, from the opening.
    pub fn carried_out<L: Ledger>(
        alloc: Global,
        seed: u64,
        count: u64,
        steps: &mut Steps<L>,
    ) -> Result<Load, NoMemory>
        requires { count ≤ COUNT_MOST }
        ensures { IfOk result (λ done. StandsFor done.protocol
            (run opening (load opening (generated seed count))).0
            × (done.counts ≡ counts opening (load opening (generated seed count)))) }
    {
        let mut done = Load {
            protocol: Protocol::new(alloc),
            counts: Counts {
                accepted: 0,
                refused: 0,
                offsets: 0,
            },
        };
        let mut calls = generate(seed, count);
        while let Some(call) = calls.next() {
            done.carry_out(call, steps)?;
        }
        Ok(done)
    }

    /// Carries out the client's next command, with this call.
    fn carry_out<L: Ledger>(&mut self, call: Call, steps: &mut Steps<L>) -> Result<(), NoMemory>
        requires few { AreWithin (2 ^ 32) self.old.counts }
        requires numbered { IsNumbered self.old.protocol self.old.counts }
        ensures done { OnOk result ((s : State) → StandsFor self.old.protocol s
            → StandsFor self.new.protocol (step s (next_command s call)).0
            × (self.new.counts ≡ plus self.old.counts (counts s (next_command s call ∷ [])))) }
        ensures few { (n : ℕ) → AreWithin n self.old.counts → AreWithin (n + 1) self.new.counts }
        ensures numbered { IsNumbered self.new.protocol self.new.counts }
    {
        // odd: law called
        commands_make_few_events();
        protocols_stand(&self.protocol);
        let command = Command {
            client: CLIENT,
            number: self.next_number(),
            call,
        };
        match self.protocol.plan(&command) {
            Ok(Turn::New(planned)) => {
                self.protocol.reserve(&planned)?;
                self.counts.accepted += 1;
                self.counts.offsets += offsets(planned.events());
                self.protocol.apply(planned, &Hint::NONE, steps);
                Ok(())
            }
            Ok(Turn::Again(_)) => Ok(()),
            Err(PlanFault::No(_)) => {
                self.counts.refused += 1;
                Ok(())
            }
            Err(PlanFault::NoMemory) => Err(NoMemory),
        }
    }

    /// The protocol's answer to a query.
    fn answer(&self, query: &Query) -> Reply
        ensures here { (step (state_of self.now.protocol) (Ask query.now)).1 ≡ result }
        ensures each { (s : State) → StandsFor self.now.protocol s → (step s (Ask query.now)).1
            ≡ result }
    {
        // odd: law called
        protocols_stand(&self.protocol);
        self.protocol.query(query)
    }

    /// The number of the client's next command, behind those that were accepted.
    fn next_number(&self) -> u64
        requires few { AreWithin (2 ^ 32) self.now.counts }
        requires numbered { IsNumbered self.now.protocol self.now.counts }
        ensures { (s : State) → StandsFor self.now.protocol s → result ≡ next_number s CLIENT }
    {
        self.counts.accepted + 1
    }

    /// The debt of all troves, which is all LUSD.
    fn supply(&self) -> u64
        ensures { (s : State) → StandsFor self.now.protocol s → result ≡ total_debt s }
    {
        match self.answer(&Query::System) {
            Reply::Told(Info::System { words }) => words[8],
            _ => unreachable!(),
        }
    }

    /// The line that tells where it has come to.
    pub fn line(&self, alloc: Global) -> Result<String, NoMemory>
        ensures { IfOk result (λ line. (s : State) → StandsFor self.now.protocol s
            → string_bytes line ≡ told self.now.counts (pool_words s) (total_debt s)) }
    {
        let Counts {
            accepted,
            refused,
            offsets,
        } = self.counts;
        let words = self.protocol.pool_words();
        let (epoch, scale, p) = (words.epoch, words.scale, words.p);
        let (total, coll) = (words.total, words.coll);
        let supply = self.supply();
        let line = format!(in alloc;
            "accepted {accepted} refused {refused} offsets {offsets} epochs {epoch} scale {scale} \
             p {p} total {total} coll {coll} supply {supply}\n"
        )?;
        Ok(line)
    }
}

/// How many of the events are offsets.
fn offsets(events: &[PoolEvent]) -> u64
    ensures { result ≡ offsets_in events.now }
{
    events
        .iter()
        .filter(|event| matches!(event, PoolEvent::Offset { .. }))
        .count() as u64
}
