//! A command on its way: planned and given room before it is written, and made behind that.
ghost use Rattle.std.specs.Prelude.{◌≡◌, ◌≤◌, ◌+◌, vec_capacity, vec_len};
ghost use Rattle.liq_types.specs.State.{State};
ghost use Rattle.liq_types.specs.declared.replies.Reply.TheVariants.{Said};
ghost use Rattle.liq_types.specs.declared.requests.Request.TheVariants.{Do};
ghost use Rattle.liq_core.specs.Core.{SameContent, StandsFor, state_of};
ghost use Rattle.liq_core.specs.Plan.{HasRoom, IsPlannedOn};
ghost use Rattle.liq_core.specs.Steps.{last_put, words_of};
ghost use Rattle.liq_core_hinted.specs.Hints.{IsExact};
ghost use Rattle.liq_list_index.specs.Followed.{all_listed};
ghost use Rattle.liq_rule_step.specs.Step.{step};
ghost use Rattle.liq_rule_step.specs.Verbs.{no_hint};
ghost use Rattle.liq_store.specs.Preparing.{HasRoomBehind, IsGuided, IsHinted, IsPrepared, IsReady};

use liq_core::laws::protocols_stand;
use liq_core::{PlanFault, Planned, Turn, unhinted};
use liq_core_hinted::{Guided, Hints, words_of};
use liq_types::{Command, Done, Hint, ListChange, Refusal, Steps};
use std::sync::ledger::{Blank, Ledger};

// What comes of a command before anything is written.
#[derive(Drop)]
pub enum Prepared {
    // It is planned, and there is room for it. Of its hints the guide's says between whom the
    // account will stand that it puts last, if it puts any.
    Ready(Planned, Hints),
    // It comes again, and makes no step.
    Again(Done),
    // It is refused, and makes none.
    No(Refusal),
    NoMemory,
}

// Plans a command without its own hint words, which change nothing but how far the list is walked,
// and makes room for it, also behind the changes that others follow. What is seen of these and of
// the protocol stays.
pub fn prepare(
    protocol: &mut Guided,
    changes: &mut Vec<ListChange>,
    command: &Command,
    given: &Hint,
) -> Prepared
    ensures same { SameContent protocol.old protocol.new }
    ensures changes { changes.new.items ≡ changes.old.items }
    ensures prepared { (s : State) → StandsFor protocol.old s → IsPrepared s command.now result }
    ensures ready { IsReady command.now protocol.new result }
    ensures room { HasRoomBehind (vec_len changes.new) (vec_capacity changes.new) result }
    ensures exact { IsGuided protocol.old.list result }
    ensures hints { IsHinted command.now given.now result }
    ensures stands { StandsFor protocol.old (state_of protocol.old) }
{
    // odd: law called
    protocols_stand(protocol.protocol());
    let planned = match protocol.plan(&unhinted(command)) {
        Ok(Turn::New(planned)) => planned,
        Ok(Turn::Again(done)) => return Prepared::Again(done),
        Err(PlanFault::No(refusal)) => return Prepared::No(refusal),
        Err(PlanFault::NoMemory) => return Prepared::NoMemory,
    };
    // Before the protocol's room: there the guide follows what is planned, and nothing may be
    // refused behind it.
    let Ok(()) = changes.try_reserve(planned.list_changes().len()) else {
        return Prepared::NoMemory;
    };
    match protocol.reserve(&planned) {
        Ok(exact) => {
            let hints = Hints {
                exact,
                words: words_of(&command.call),
                given: *given,
            };
            Prepared::Ready(planned, hints)
        }
        Err(_) => Prepared::NoMemory,
    }
}

// Makes the step of a planned command. Its steps are counted on a ledger of their own.
pub fn make<L: Ledger>(
    protocol: &mut Guided,
    planned: &Planned,
    hints: &Hints,
    blank: Blank,
) -> Done
    requires name { blank.name ≡ L.name }
    requires parts { blank.parts ≡ L.parts }
    requires one { L.parts ≡ 1 }
    requires planned { IsPlannedOn protocol.old planned.now }
    requires room { HasRoom protocol.old planned.now }
    requires unhinted { words_of planned.now.command.call ≡ no_hint }
    requires guided { IsExact (all_listed protocol.old.list planned.now.changes)
        (last_put planned.now.changes) hints.now.exact }
    ensures state { (s : State) → StandsFor protocol.old s
        → StandsFor protocol.new (step s (Do planned.now.command)).0 }
    ensures reply { (s : State) → StandsFor protocol.old s → (step s (Do planned.now.command)).1
        ≡ Said result }
{
    let mut steps = Steps::<L>::new(blank);
    make_counted(protocol, planned, hints, &mut steps)
}

// The same, with the steps handed out: the guide's hint is used, so that the place of the trove
// takes at most four, however long the list is.
fn make_counted<L: Ledger>(
    protocol: &mut Guided,
    planned: &Planned,
    hints: &Hints,
    steps: &mut Steps<L>,
) -> Done
    requires planned { IsPlannedOn protocol.old planned.now }
    requires room { HasRoom protocol.old planned.now }
    requires unhinted { words_of planned.now.command.call ≡ no_hint }
    requires guided { IsExact (all_listed protocol.old.list planned.now.changes)
        (last_put planned.now.changes) hints.now.exact }
    ensures state { (s : State) → StandsFor protocol.old s
        → StandsFor protocol.new (step s (Do planned.now.command)).0 }
    ensures reply { (s : State) → StandsFor protocol.old s → (step s (Do planned.now.command)).1
        ≡ Said result }
    ensures few { steps.new ≤ steps.old + 4 }
{
    protocol.apply(planned, hints, steps)
}
