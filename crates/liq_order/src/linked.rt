//! Nodes that are linked in the order of their entries.

ghost use Rattle.std.specs.Prelude.{◌≡◌, false, ◌+◌, ◌≤◌, [], Some, None, IsSome, IfSome, IfNone, IfOk, IsOk, OnOk, length};
ghost use Rattle.std.specs.Ordering.{is_lt};
ghost use Rattle.std.specs.declared.cmp.Ordering.TheVariants.{Less};
ghost use Rattle.liq_types.specs.Ranked.{IsAscending, rank_order, with_ranked, without_ranked, key_in, last_account, before_in, IsTight};
ghost use Rattle.liq_order.specs.Listed.{AreDistinct};
ghost use Rattle.liq_order.specs.Nodes.{entries_at, IsBehind, IsAhead, IsGap, IsIn, Visits, memory, at_place, entries, entry_of, first_or, node_of, gap_behind, gap_between, account_of_place, FindsBehind, IsFurther};

use crate::accounts::Accounts;
use crate::cells::Cells;
use crate::places::{Gap, Node, NodeNo, comes_before};
use liq_types::{Hint, NoMemory, Steps};
use std::alloc::Global;
use std::marker::Model;
use std::sync::ledger::{Blank, Ledger};

/// The nodes of a list. Each has a place, which stays as long as its entry is in the list.
#[derive(Drop)]
pub struct Nodes {
    cells: Cells,
    accounts: Accounts,
    // For so many entries there is room in both.
    most: usize,
}

impl Model for Nodes {
    ghost use Rattle.std.specs.Prelude.{◌-◌, length, vec_capacity};
    ghost use Rattle.liq_order.specs.Nodes.{Ring, IsRing, IsRoomy, visited};
    ghost use Rattle.liq_order.specs.Accounts.{place_of};

    ghost Value = { Ring };

    ghost view = { λ n.
        let order = visited n.cells.nodes.items n.cells.first in
        record { nodes = n.cells.nodes.items; order = order; room = n.most - length order } };

    ghost invariant = { λ n.
        let cells = n.cells in
        let order = visited cells.nodes.items cells.first in
        IsRing cells.nodes.items order cells.free.items (place_of n.accounts) cells.first cells.last
        × IsRoomy n.most (length cells.nodes.items) (vec_capacity cells.nodes)
        (vec_capacity cells.free) n.accounts.room (length order) };
}

impl Nodes {
    pub(crate) fn new(alloc: Global) -> Nodes
        ensures { entries result ≡ [] }
    {
        Nodes {
            cells: Cells::new(alloc),
            accounts: Accounts::new(alloc),
            most: 0,
        }
    }

    /// The nodes of ascending entries, of which no two have the same account.
    pub(crate) fn of(alloc: Global, entries: &[(i128, u32)]) -> Result<Nodes, NoMemory>
        requires ascending { IsAscending entries.now }
        requires distinct { AreDistinct entries.now }
        ensures { IfOk result (λ nodes. entries_at (memory nodes.nodes) nodes.order ≡ entries.now) }
    {
        let most = entries.len();
        if most > u32::MAX as usize {
            return Err(NoMemory);
        }
        Ok(Nodes {
            cells: Cells::of(alloc, entries)?,
            accounts: Accounts::of(alloc, entries)?,
            most,
        })
    }

    /// The place of the first node: `None` exactly where the list is empty.
    pub fn first(&self) -> Option<NodeNo>
        ensures { result ≡ first_or None self.now.order }
    {
        self.cells.first()
    }

    /// The node at a place that is in use. It counts as a step.
    pub fn read<L: Ledger>(&self, at: NodeNo, steps: &mut Steps<L>) -> &Node
        requires { IsIn at self.now.order }
        ensures node { result.now ≡ at_place self.now at }
        ensures step { steps.new ≡ steps.old + 1 }
    {
        self.cells.look(at, steps)
    }

    /// The place of an account's node: `None` exactly where the account is not in the list. It
    /// counts as a step.
    pub fn at<L: Ledger>(&self, id: u32, steps: &mut Steps<L>) -> Option<NodeNo>
        ensures there { IfSome result (λ p. IsIn p self.now.order
            × ((at_place self.now p).account ≡ id)) }
        ensures none { IfNone result (key_in (entries self.now) id ≡ None) }
        ensures place { result ≡ node_of (memory self.now.nodes) self.now.order id }
        ensures step { steps.new ≡ steps.old + 1 }
    {
        self.accounts.find(id, steps)
    }

    /// The nodes, of which going along from the first visits each entry.
    pub(crate) fn in_order(&self) -> &Nodes
        ensures same { result.now ≡ self.now }
        ensures all { Visits self.now (first_or None self.now.order) None (entries self.now) }
    {
        // odd: field read
        let _ = &self.cells;
        self
    }

    // ---- where an entry goes

    /// The gap into which an entry belongs. With a tight hint it is the hinted one; else one goes
    /// along from the first.
    fn gap<L: Ledger>(&self, entry: (i128, u32), hint: &Hint, steps: &mut Steps<L>) -> Gap
        requires { key_in (entries self.now) entry.1 ≡ None }
        ensures gap { IsGap self.now entry result }
        ensures tight { IsTight (entries self.now) entry hint.now.prev hint.now.next
            → steps.new ≤ steps.old + 3 }
        ensures any { steps.new ≤ steps.old + (length (entries self.now) + 3) }
        ensures least { steps.old ≤ steps.new }
    {
        match self.hinted_gap(entry, hint, steps) {
            Some(gap) => gap,
            None => self.walk(entry, steps),
        }
    }

    // The gap between the two accounts of a hint, where they are neighbours and the entry belongs
    // between them.
    fn hinted_gap<L: Ledger>(
        &self,
        entry: (i128, u32),
        hint: &Hint,
        steps: &mut Steps<L>,
    ) -> Option<Gap>
        ensures gap { IfSome result (λ g. IsGap self.now entry g) }
        ensures tight { IsTight (entries self.now) entry hint.now.prev hint.now.next
            → IsSome result }
        ensures steps { steps.new ≤ steps.old + 3 }
        ensures least { steps.old ≤ steps.new }
    {
        let gap = self.gap_behind(entry, hint.prev, steps)?;
        self.ending(gap, entry, hint.next, steps)
    }

    // The gap behind an account, or before all where there is none.
    fn gap_behind<L: Ledger>(
        &self,
        entry: (i128, u32),
        prev: Option<u32>,
        steps: &mut Steps<L>,
    ) -> Option<Gap>
        ensures gap { IfSome result (λ g. IsBehind self.now entry g) }
        ensures tight { FindsBehind self.now entry prev result }
        ensures steps { steps.new ≤ steps.old + 2 }
        ensures least { steps.old ≤ steps.new }
    {
        match prev {
            Some(id) => self.behind(entry, id, steps),
            None => Some(self.front()),
        }
    }

    // The gap before all entries.
    fn front(&self) -> Gap
        ensures { result ≡ gap_between [] self.now.order }
    {
        Gap {
            previous: None,
            next: self.cells.first(),
        }
    }

    // The gap behind an account, where the entry comes after it.
    fn behind<L: Ledger>(&self, entry: (i128, u32), id: u32, steps: &mut Steps<L>) -> Option<Gap>
        ensures gap { IfSome result (λ g. IsBehind self.now entry g) }
        ensures tight { FindsBehind self.now entry (Some id) result }
        ensures steps { steps.new ≤ steps.old + 2 }
        ensures least { steps.old ≤ steps.new }
    {
        // odd: field read
        let _ = &self.cells;
        let at = self.at(id, steps)?;
        self.past(at, entry, steps)
    }

    // The gap behind a place, where the entry comes after what is there.
    fn past<L: Ledger>(&self, at: NodeNo, entry: (i128, u32), steps: &mut Steps<L>) -> Option<Gap>
        requires { IsIn at self.now.order }
        ensures past { IfSome result (λ g. (g ≡ gap_behind self.now at)
            × (rank_order (entry_of (at_place self.now at)) entry ≡ Less)) }
        ensures not { IfNone result
            (is_lt (rank_order (entry_of (at_place self.now at)) entry) ≡ false) }
        ensures step { steps.new ≡ steps.old + 1 }
    {
        let node = self.read(at, steps);
        if node.is_before(entry) {
            Some(Gap {
                previous: Some(at),
                next: node.next,
            })
        } else {
            None
        }
    }

    // The same gap, where the entry comes before what is behind it, which is of this account.
    fn ending<L: Ledger>(
        &self,
        gap: Gap,
        entry: (i128, u32),
        next: Option<u32>,
        steps: &mut Steps<L>,
    ) -> Option<Gap>
        requires { IsBehind self.now entry gap }
        ensures gap { IfSome result (λ g. IsGap self.now entry g) }
        ensures tight { next ≡ account_of_place self.now gap.next → IsAhead self.now entry gap
            → IsSome result }
        ensures steps { steps.new ≤ steps.old + 1 }
        ensures least { steps.old ≤ steps.new }
    {
        match gap.next {
            Some(at) => {
                let node = self.read(at, steps);
                if next == Some(node.account) && comes_before(entry, node.entry()) {
                    Some(gap)
                } else {
                    None
                }
            }
            None => { if next.is_none() { Some(gap) } else { None } }
        }
    }

    // Goes along from the first, until the entry comes before what is next.
    fn walk<L: Ledger>(&self, entry: (i128, u32), steps: &mut Steps<L>) -> Gap
        requires { key_in (entries self.now) entry.1 ≡ None }
        ensures gap { IsGap self.now entry result }
        ensures steps { steps.new ≤ steps.old + length self.now.order }
        ensures least { steps.old ≤ steps.new }
    {
        let mut gap = self.front();
        while let Some(further) = self.step(gap, entry, steps) {
            gap = further;
        }
        gap
    }

    // The gap one place further, where the entry comes after what is between.
    fn step<L: Ledger>(&self, gap: Gap, entry: (i128, u32), steps: &mut Steps<L>) -> Option<Gap>
        requires absent { key_in (entries self.now) entry.1 ≡ None }
        requires behind { IsBehind self.now entry gap }
        ensures on { IfSome result (λ further. IsFurther self.now entry gap further) }
        ensures stop { IfNone result (IsAhead self.now entry gap) }
        ensures step { IfSome result (λ _. steps.new ≡ steps.old + 1) }
        ensures steps { steps.new ≤ steps.old + 1 }
        ensures least { steps.old ≤ steps.new }
        ensures ended { gap.next ≡ None → steps.new ≡ steps.old }
    {
        // odd: field read
        let _ = &self.cells;
        match gap.next {
            Some(at) => self.past(at, entry, steps),
            None => None,
        }
    }

    // ---- changes

    /// Room for so many more entries. The entries stay.
    pub(crate) fn reserve(&mut self, more: usize) -> Result<(), NoMemory>
        ensures same { entries self.new ≡ entries self.old }
        ensures room { OnOk result (more ≤ self.new.room) }
        ensures kept { self.old.room ≤ self.new.room }
        ensures had { more ≤ self.old.room → IsOk result }
    {
        let listed = self.cells.used();
        if more <= self.most - listed {
            // There is room already. But marked rows may take it up, and would all go when it is
            // used, which takes time. So room beside them is asked for; without memory for it, the
            // room that there is serves.
            let _ = self.accounts.reserve(more);
            return Ok(());
        }
        if more > u32::MAX as usize - listed {
            return Err(NoMemory);
        }
        self.cells.reserve(more, listed + more)?;
        self.accounts.reserve(more)?;
        self.most = listed + more;
        Ok(())
    }

    /// Puts an entry where it belongs. Finding an account's place, looking at a node and changing
    /// the list are a step each.
    pub(crate) fn put<L: Ledger>(&mut self, key: i128, id: u32, hint: &Hint, steps: &mut Steps<L>)
        requires absent { key_in (entries self.old) id ≡ None }
        requires room { 1 ≤ self.old.room }
        ensures list { entries self.new ≡ with_ranked (entries self.old) (key, id) }
        ensures room { self.new.room + 1 ≡ self.old.room }
        ensures tight { IsTight (entries self.old) (key, id) hint.now.prev hint.now.next
            → steps.new ≤ steps.old + 4 }
        ensures any { steps.new ≤ steps.old + (length (entries self.old) + 4) }
        ensures least { steps.old + 1 ≤ steps.new }
    {
        let gap = self.gap((key, id), hint, steps);
        self.put_between(key, id, gap, steps);
    }

    // Puts an entry into the gap into which it belongs.
    fn put_between<L: Ledger>(&mut self, key: i128, id: u32, gap: Gap, steps: &mut Steps<L>)
        requires absent { key_in (entries self.old) id ≡ None }
        requires room { 1 ≤ self.old.room }
        requires gap { IsGap self.old (key, id) gap }
        ensures list { entries self.new ≡ with_ranked (entries self.old) (key, id) }
        ensures room { self.new.room + 1 ≡ self.old.room }
        ensures step { steps.new ≡ steps.old + 1 }
    {
        let node = Node {
            key,
            account: id,
            previous: gap.previous,
            next: gap.next,
        };
        let at = self.cells.link(node, steps);
        self.accounts.put(id, at);
    }

    /// Takes an account's entry out, in two steps: its place is found, and the list is changed.
    fn take<L: Ledger>(&mut self, id: u32, steps: &mut Steps<L>)
        requires there { IsSome (key_in (entries self.old) id) }
        ensures list { entries self.new ≡ without_ranked (entries self.old) id }
        ensures room { self.new.room ≡ self.old.room + 1 }
        ensures steps { steps.new ≡ steps.old + 2 }
    {
        let at = self.accounts.take(id, steps);
        self.cells.unlink(at, steps);
    }

    // ---- with steps counted for themselves

    /// Takes an account's entry out.
    pub(crate) fn remove<L: Ledger>(&mut self, id: u32, blank: Blank)
        requires there { IsSome (key_in (entries self.old) id) }
        requires name { blank.name ≡ L.name }
        requires parts { blank.parts ≡ L.parts }
        requires one { L.parts ≡ 1 }
        ensures list { entries self.new ≡ without_ranked (entries self.old) id }
        ensures room { self.new.room ≡ self.old.room + 1 }
    {
        let mut steps = Steps::<L>::new(blank);
        self.take(id, &mut steps);
    }

    /// The account of the last entry.
    pub(crate) fn end<L: Ledger>(&self, blank: Blank) -> Option<u32>
        requires name { blank.name ≡ L.name }
        requires parts { blank.parts ≡ L.parts }
        requires one { L.parts ≡ 1 }
        ensures { result ≡ last_account (entries self.now) }
    {
        let mut steps = Steps::<L>::new(blank);
        let last = self.cells.last()?;
        Some(self.read(last, &mut steps).account)
    }

    /// The account of the entry before an account's.
    pub(crate) fn before<L: Ledger>(&self, id: u32, blank: Blank) -> Option<u32>
        requires there { IsSome (key_in (entries self.now) id) }
        requires name { blank.name ≡ L.name }
        requires parts { blank.parts ≡ L.parts }
        requires one { L.parts ≡ 1 }
        ensures { result ≡ before_in (entries self.now) id }
    {
        let mut steps = Steps::<L>::new(blank);
        // odd: field read
        let _ = &self.cells;
        let at = self.at(id, &mut steps)?;
        let previous = self.read(at, &mut steps).previous?;
        Some(self.read(previous, &mut steps).account)
    }

    /// The key of an account.
    pub(crate) fn key_of<L: Ledger>(&self, id: u32, blank: Blank) -> Option<i128>
        requires name { blank.name ≡ L.name }
        requires parts { blank.parts ≡ L.parts }
        requires one { L.parts ≡ 1 }
        ensures { result ≡ key_in (entries self.now) id }
    {
        let mut steps = Steps::<L>::new(blank);
        let at = self.at(id, &mut steps)?;
        Some(self.read(at, &mut steps).key())
    }
}
