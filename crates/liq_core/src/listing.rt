//! The ordered list as others follow it from nothing.

ghost use Rattle.std.specs.Prelude.{◌≡◌, ◌∷◌, IfOk, map};
ghost use Rattle.liq_types.specs.declared.events.ListChange.{ListChange};
ghost use Rattle.liq_types.specs.State.{State, opening};
ghost use Rattle.liq_order.specs.Nodes.{entry_of};
ghost use Rattle.liq_core.specs.Core.{StandsFor};
ghost use Rattle.liq_core.specs.Entries.{put_entry, told_whole};
ghost use Rattle.liq_rule_step.specs.View.{all_followed, view_of};

use crate::engine::Protocol;
use liq_order::{Node, Order};
use liq_types::{ListChange, NoMemory, Steps};
use std::alloc::Global;
use std::marker::Brand;
use std::sync::ledger::{Blank, Ledger};

impl Protocol {
    /// What whoever has seen nothing must follow to have the list of now: the words of which keys
    /// are made, and then each trove in order. There may be no memory for it.
    pub fn list(&self, alloc: Global) -> Result<Vec<ListChange>, NoMemory>
        ensures told { IfOk result (λ changes. changes.items
            ≡ told_whole self.now.image self.now.list) }
        ensures followed { IfOk result (λ changes. (s : State) → StandsFor self.now s
            → all_followed (view_of opening) changes.items ≡ view_of s) }
    {
        let sums = self.troves.sums();
        let words = ListChange::Words {
            snap_stakes: sums.snap_stakes,
            snap_coll: sums.snap_coll,
            sum_debt: sums.debt,
        };
        // odd: steps counted
        told_along::<Brand>(alloc, words, &self.order, Blank::new(1))
    }
}

/// The words, and then each entry along the nodes of the list, on a ledger of its own.
fn told_along<L: Ledger>(
    alloc: Global,
    words: ListChange,
    order: &Order,
    blank: Blank,
) -> Result<Vec<ListChange>, NoMemory>
    requires name { blank.name ≡ L.name }
    requires parts { blank.parts ≡ L.parts }
    requires one { L.parts ≡ 1 }
    ensures { IfOk result (λ changes. changes.items ≡ words ∷ map put_entry order.now.entries) }
{
    let mut steps = Steps::<L>::new(blank);
    let mut changes = Vec::new(alloc);
    let Ok(()) = changes.push(words) else {
        return Err(NoMemory);
    };
    let nodes = order.nodes();
    let mut next = nodes.first();
    while let Some(at) = next {
        let node = nodes.read(at, &mut steps);
        let Ok(()) = changes.push(told(node)) else {
            return Err(NoMemory);
        };
        next = node.next;
    }
    Ok(changes)
}

/// A node's entry, as others follow it.
fn told(node: &Node) -> ListChange
    ensures { result ≡ put_entry (entry_of node.now) }
{
    let (key, account) = (node.key, node.account);
    ListChange::Put { key, account }
}
