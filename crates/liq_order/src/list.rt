//! The list of troves in the order of their ratios.

ghost use Rattle.std.specs.Prelude.{◌≡◌, ◌+◌, ◌≤◌, [], None, IfOk, IsOk, IsSome, OnOk, length};
ghost use Rattle.liq_types.specs.Ranked.{sorted, with_ranked, without_ranked, last_account, before_in, key_in, IsTight};
ghost use Rattle.liq_order.specs.Listed.{AreDistinct};
ghost use Rattle.liq_order.specs.Nodes.{Visits, entries, first_or};

use crate::linked::Nodes;
use liq_types::{Hint, NoMemory, Steps};
use std::alloc::Global;
use std::marker::{Brand, Model};
use std::sync::ledger::{Blank, Ledger};

/// The accounts that have a trove, in ascending order of their keys and, where keys are equal, of
/// their accounts. The last one counts as that of the lowest ratio.
pub struct Order {
    nodes: Nodes,
}

// odd: drop written out
impl Drop for Order {
    fn drop(self) {
        let Order { nodes: _ } = self;
    }
}

impl Model for Order {
    ghost use Rattle.liq_order.specs.Listed.{Listed};
    ghost use Rattle.liq_order.specs.Nodes.{entries};

    ghost Value = { Listed };

    ghost view = { λ o. record { entries = entries o.nodes; room = o.nodes.room } };
}

impl Order {
    /// A list of nothing.
    pub fn new(alloc: Global) -> Order
        ensures { result.entries ≡ [] }
    {
        Order {
            nodes: Nodes::new(alloc),
        }
    }

    /// The list of these keys and accounts, in whatever order they are. No account may be there
    /// twice. `NoMemory` where there is no memory for them, or where they are more than 2^32 - 1.
    pub fn from_ranked(alloc: Global, mut pairs: Vec<(i128, u32)>) -> Result<Order, NoMemory>
        requires { AreDistinct pairs.items }
        ensures { IfOk result (λ order. order.entries ≡ sorted pairs.items) }
    {
        pairs.sort_unstable();
        let nodes = Nodes::of(alloc, &pairs)?;
        Ok(Order { nodes })
    }

    /// Makes room for so many more entries, so that [`Order::insert`] takes no memory. The list
    /// stays, also where there is no memory; room that there was stays too, and where it was enough
    /// this does not fail. There is room for 2^32 - 1 entries in all, and none for more.
    pub fn reserve(&mut self, more: usize) -> Result<(), NoMemory>
        ensures same { self.new.entries ≡ self.old.entries }
        ensures room { OnOk result (more ≤ self.new.room) }
        ensures kept { self.old.room ≤ self.new.room }
        ensures had { more ≤ self.old.room → IsOk result }
    {
        self.nodes.reserve(more)
    }

    /// Puts an account into the list under its key. The hint changes nothing but the steps: with a
    /// tight one there are four at most, with any other one as many more as there are entries. A
    /// step is to find an account's place, to look at a node, or to change the list, and no node
    /// is seen or changed without one.
    pub fn insert<L: Ledger>(&mut self, key: i128, id: u32, hint: &Hint, steps: &mut Steps<L>)
        requires absent { key_in self.old.entries id ≡ None }
        requires room { 1 ≤ self.old.room }
        ensures list { self.new.entries ≡ with_ranked self.old.entries (key, id) }
        ensures room { self.new.room + 1 ≡ self.old.room }
        ensures tight { IsTight self.old.entries (key, id) hint.now.prev hint.now.next
            → steps.new ≤ steps.old + 4 }
        ensures any { steps.new ≤ steps.old + (length self.old.entries + 4) }
        ensures least { steps.old + 1 ≤ steps.new }
    {
        self.nodes.put(key, id, hint, steps);
    }

    /// Takes an account out of the list.
    pub fn remove(&mut self, id: u32)
        requires { IsSome (key_in self.old.entries id) }
        ensures list { self.new.entries ≡ without_ranked self.old.entries id }
        ensures room { self.new.room ≡ self.old.room + 1 }
    {
        // odd: steps counted
        self.nodes.remove::<Brand>(id, Blank::new(1));
    }

    /// The last account of the list: `None` exactly where the list is empty.
    pub fn last(&self) -> Option<u32>
        ensures { result ≡ last_account self.now.entries }
    {
        // odd: steps counted
        self.nodes.end::<Brand>(Blank::new(1))
    }

    /// The account next nearer the front: `None` exactly where this one is the first.
    pub fn before(&self, id: u32) -> Option<u32>
        requires { IsSome (key_in self.now.entries id) }
        ensures { result ≡ before_in self.now.entries id }
    {
        // odd: steps counted
        self.nodes.before::<Brand>(id, Blank::new(1))
    }

    /// The key of an account: `None` exactly where it is not in the list.
    pub fn find(&self, id: u32) -> Option<i128>
        ensures { result ≡ key_in self.now.entries id }
    {
        // odd: steps counted
        self.nodes.key_of::<Brand>(id, Blank::new(1))
    }

    /// The nodes of the list. Going along from the first one visits just the entries in their
    /// order, and each visited node's previous place is the one that was visited before it.
    pub fn nodes(&self) -> &Nodes
        ensures entries { entries result.now ≡ self.now.entries }
        ensures visits { Visits result.now (first_or None result.now.order) None self.now.entries }
    {
        self.nodes.in_order()
    }
}
