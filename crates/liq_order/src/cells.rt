//! The cells in which the nodes of a list lie. Outside of this module a node is seen by
//! [`Cells::look`] alone, and the list is changed by [`Cells::link`] and [`Cells::unlink`] alone:
//! no index, slice or iterator is given out. Each of the three takes exactly one step, and so does
//! finding an account's place. So [`Steps`] counts every look at the list and every change of it.

ghost use Rattle.std.specs.Prelude.{◌≡◌, ◌+◌, ◌<◌, ◌≤◌, ◌^◌, [], IfOk, OnOk, None, length, vec_len, vec_capacity};
ghost use Rattle.liq_order.specs.Cells.{IsLinked, IsUnlinked};
ghost use Rattle.liq_order.specs.Chained.{before, below, chained};
ghost use Rattle.liq_order.specs.Nodes.{AreWithin, IsWithin, IsSettled, memory, with_next, with_previous, end_or};

use crate::at_once::{nodes_of, place_before, place_below};
use crate::places::{Gap, Node, NodeNo};
use liq_types::{NoMemory, Steps};
use std::alloc::Global;
use std::sync::ledger::Ledger;

/// A cell for each place. Those of the list's entries are linked to one another, and the others are
/// free.
#[derive(Drop)]
pub(crate) struct Cells {
    nodes: Vec<Node>,
    // The places of the cells that are free.
    free: Vec<NodeNo>,
    // The places of the list's first and last node.
    first: Option<NodeNo>,
    last: Option<NodeNo>,
}

impl Cells {
    /// No cells.
    pub(crate) fn new(alloc: Global) -> Cells
        ensures nodes { result.nodes.items ≡ [] }
        ensures free { result.free.items ≡ [] }
        ensures first { result.first ≡ None }
        ensures last { result.last ≡ None }
    {
        Cells {
            nodes: Vec::new(alloc),
            free: Vec::new(alloc),
            first: None,
            last: None,
        }
    }

    /// A cell for each of these entries, in their order. It goes through all of them.
    pub(crate) fn of(alloc: Global, entries: &[(i128, u32)]) -> Result<Cells, NoMemory>
        requires { length entries.now < 2 ^ 32 }
        ensures nodes { IfOk result (λ cells. cells.nodes.items
            ≡ chained (length entries.now) 0 entries.now) }
        ensures free { IfOk result (λ cells. cells.free.items ≡ []) }
        ensures first { IfOk result (λ cells. cells.first ≡ below (length entries.now) 0) }
        ensures last { IfOk result (λ cells. cells.last ≡ before (length entries.now)) }
        ensures nodes_room { IfOk result (λ cells. length entries.now ≤ vec_capacity cells.nodes) }
        ensures free_room { IfOk result (λ cells. length entries.now ≤ vec_capacity cells.free) }
    {
        let count = entries.len();
        let Ok(free) = Vec::with_capacity(alloc, count) else {
            return Err(NoMemory);
        };
        Ok(Cells {
            nodes: nodes_of(alloc, entries)?,
            free,
            first: place_below(count, 0),
            last: place_before(count),
        })
    }

    /// The place of the list's first node.
    pub(crate) fn first(&self) -> Option<NodeNo>
        ensures { result ≡ self.now.first }
    {
        self.first
    }

    /// The place of the list's last node.
    pub(crate) fn last(&self) -> Option<NodeNo>
        ensures { result ≡ self.now.last }
    {
        self.last
    }

    /// How many cells are not free.
    pub(crate) fn used(&self) -> usize
        requires { length self.now.free.items ≤ length self.now.nodes.items }
        ensures { result + length self.now.free.items ≡ length self.now.nodes.items }
    {
        self.nodes.len() - self.free.len()
    }

    /// Room for so many more cells, and for so many free ones in all. It may move all cells.
    pub(crate) fn reserve(&mut self, more: usize, free: usize) -> Result<(), NoMemory>
        ensures nodes { self.new.nodes.items ≡ self.old.nodes.items }
        ensures free { self.new.free.items ≡ self.old.free.items }
        ensures first { self.new.first ≡ self.old.first }
        ensures last { self.new.last ≡ self.old.last }
        ensures nodes_kept { vec_capacity self.old.nodes ≤ vec_capacity self.new.nodes }
        ensures free_kept { vec_capacity self.old.free ≤ vec_capacity self.new.free }
        ensures nodes_room { OnOk result
            (length self.old.nodes.items + more ≤ vec_capacity self.new.nodes) }
        ensures free_room { OnOk result (free ≤ vec_capacity self.new.free) }
    {
        if self.nodes.reserve(more).is_err() || self.free.reserve(free).is_err() {
            return Err(NoMemory);
        }
        Ok(())
    }

    // ---- what takes a step

    /// Looks at the node of a place.
    pub(crate) fn look<L: Ledger>(&self, at: NodeNo, steps: &mut Steps<L>) -> &Node
        requires { at.0 < length self.now.nodes.items }
        ensures node { result.now ≡ memory self.now.nodes.items at }
        ensures step { steps.new ≡ steps.old + 1 }
    {
        steps.tick(); // One for a node that is seen.
        &self.nodes[at.0 as usize]
    }

    /// Puts a node into a free cell, or else into a new one, between the two that it names. The
    /// answer is its place.
    pub(crate) fn link<L: Ledger>(&mut self, node: Node, steps: &mut Steps<L>) -> NodeNo
        requires within { AreWithin (length self.old.nodes.items) self.old.free.items }
        requires few { vec_len self.old.nodes < 2 ^ 32 }
        requires room { length self.old.free.items ≡ 0
            → vec_len self.old.nodes < vec_capacity self.old.nodes }
        requires before { IsWithin self.old.nodes.items node.previous }
        requires behind { IsWithin self.old.nodes.items node.next }
        ensures linked { IsLinked self.old node result self.new }
        ensures nodes_room { vec_capacity self.new.nodes ≡ vec_capacity self.old.nodes }
        ensures free_room { vec_capacity self.new.free ≡ vec_capacity self.old.free }
        ensures step { steps.new ≡ steps.old + 1 }
    {
        steps.tick(); // One for a node that comes, and for what points to it.
        let gap = Gap {
            previous: node.previous,
            next: node.next,
        };
        let at = settle(&mut self.nodes, &mut self.free, node);
        self.join(gap, Some(at), Some(at));
        at
    }

    /// Takes a place's node out of the list: what is beside it is joined, and its cell is free. The
    /// look at the node is the step.
    pub(crate) fn unlink<L: Ledger>(&mut self, at: NodeNo, steps: &mut Steps<L>)
        requires there { at.0 < length self.old.nodes.items }
        requires room { vec_len self.old.free < vec_capacity self.old.free }
        requires before { IsWithin self.old.nodes.items (memory self.old.nodes.items at).previous }
        requires behind { IsWithin self.old.nodes.items (memory self.old.nodes.items at).next }
        ensures unlinked { let node = memory self.old.nodes.items at in
            IsUnlinked self.old at node.previous node.next self.new }
        ensures nodes_room { vec_capacity self.new.nodes ≡ vec_capacity self.old.nodes }
        ensures free_room { vec_capacity self.new.free ≡ vec_capacity self.old.free }
        ensures step { steps.new ≡ steps.old + 1 }
    {
        let Node { previous, next, .. } = *self.look(at, steps);
        self.free.push_reserved(at);
        self.join(Gap { previous, next }, next, previous);
    }

    // Joins what is around a gap with what comes into it: `next` is pointed to from before it, and
    // `previous` from behind it.
    fn join(&mut self, gap: Gap, next: Option<NodeNo>, previous: Option<NodeNo>)
        requires before { IsWithin self.old.nodes.items gap.previous }
        requires behind { IsWithin self.old.nodes.items gap.next }
        ensures nodes { self.new.nodes.items
            ≡ with_previous (with_next self.old.nodes.items gap.previous next) gap.next previous }
        ensures first { self.new.first ≡ end_or gap.previous self.old.first next }
        ensures last { self.new.last ≡ end_or gap.next self.old.last previous }
        ensures free { self.new.free.items ≡ self.old.free.items }
        ensures nodes_room { vec_capacity self.new.nodes ≡ vec_capacity self.old.nodes }
        ensures free_room { vec_capacity self.new.free ≡ vec_capacity self.old.free }
    {
        point_on(&mut self.nodes, &mut self.first, gap.previous, next);
        point_back(&mut self.nodes, &mut self.last, gap.next, previous);
    }
}

// Writes a node to a free place, the last of them, or else behind all nodes.
fn settle(nodes: &mut Vec<Node>, free: &mut Vec<NodeNo>, node: Node) -> NodeNo
    requires within { AreWithin (length nodes.old.items) free.old.items }
    requires few { vec_len nodes.old < 2 ^ 32 }
    requires room { length free.old.items ≡ 0 → vec_len nodes.old < vec_capacity nodes.old }
    ensures place { IsSettled nodes.old.items free.old.items node result
        nodes.new.items free.new.items }
    ensures nodes_room { vec_capacity nodes.new ≡ vec_capacity nodes.old }
    ensures free_room { vec_capacity free.new ≡ vec_capacity free.old }
{
    match free.pop() {
        Some(at) => {
            nodes[at.0 as usize] = node;
            at
        }
        None => {
            let at = NodeNo(nodes.len() as u32);
            nodes.push_reserved(node);
            at
        }
    }
}

// Points on from a place, or from the list's front.
fn point_on(
    nodes: &mut Vec<Node>,
    first: &mut Option<NodeNo>,
    from: Option<NodeNo>,
    to: Option<NodeNo>,
)
    requires { IsWithin nodes.old.items from }
    ensures nodes { nodes.new.items ≡ with_next nodes.old.items from to }
    ensures first { first.new ≡ end_or from first.old to }
    ensures len { length nodes.new.items ≡ length nodes.old.items }
    ensures room { vec_capacity nodes.new ≡ vec_capacity nodes.old }
{
    match from {
        Some(from) => nodes[from.0 as usize].next = to,
        None => *first = to,
    }
}

// Points back from a place, or from the list's end.
fn point_back(
    nodes: &mut Vec<Node>,
    last: &mut Option<NodeNo>,
    from: Option<NodeNo>,
    to: Option<NodeNo>,
)
    requires { IsWithin nodes.old.items from }
    ensures nodes { nodes.new.items ≡ with_previous nodes.old.items from to }
    ensures last { last.new ≡ end_or from last.old to }
    ensures len { length nodes.new.items ≡ length nodes.old.items }
    ensures room { vec_capacity nodes.new ≡ vec_capacity nodes.old }
{
    match from {
        Some(from) => nodes[from.0 as usize].previous = to,
        None => *last = to,
    }
}
