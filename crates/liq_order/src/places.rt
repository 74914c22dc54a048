//! The nodes of the list, and the places where they are kept.

ghost use Rattle.std.specs.Prelude.{◌≡◌};
ghost use Rattle.std.specs.Ordering.{is_lt};
ghost use Rattle.liq_types.specs.Ranked.{rank_order};
ghost use Rattle.liq_order.specs.Nodes.{entry_of};

/// The place of a node.
#[derive(Clone, Copy, Debug, PartialEq, Eq)]
pub struct NodeNo(pub(crate) u32);

/// An entry of the list, and where the entries beside it are.
#[derive(Clone, Copy, Debug, PartialEq, Eq)]
pub struct Node {
    /// The key of the entry.
    pub key: i128,
    /// The account of the entry.
    pub account: u32,
    /// The place of the entry next nearer the front: `None` at the first.
    pub previous: Option<NodeNo>,
    /// The place of the entry next nearer the end: `None` at the last.
    pub next: Option<NodeNo>,
}

impl Node {
    /// An entry's node between two places.
    pub(crate) fn of(entry: (i128, u32), previous: Option<NodeNo>, next: Option<NodeNo>) -> Node
        ensures { result ≡ record {
          key = entry.0;
          account = entry.1;
          previous = previous;
          next = next;
        } }
    {
        Node {
            key: entry.0,
            account: entry.1,
            previous,
            next,
        }
    }

    /// Whether the node's entry stands nearer the front than this one. Where the keys differ they
    /// decide, and the accounts aren't read.
    pub(crate) fn is_before(&self, entry: (i128, u32)) -> bool
        ensures { result ≡ is_lt (rank_order (entry_of self.now) entry) }
    {
        if self.key < entry.0 {
            return true;
        }
        self.key == entry.0 && self.account < entry.1
    }

    /// The key and the account.
    pub(crate) fn entry(&self) -> (i128, u32)
        ensures key { result.0 ≡ self.now.key }
        ensures account { result.1 ≡ self.now.account }
    {
        (self.key, self.account)
    }

    /// The key.
    pub(crate) fn key(&self) -> i128
        ensures { result ≡ self.now.key }
    {
        self.key
    }
}

/// The places between which an entry is put: `None` where it comes first or last.
#[derive(Clone, Copy)]
pub(crate) struct Gap {
    pub previous: Option<NodeNo>,
    pub next: Option<NodeNo>,
}

/// Whether an entry stands nearer the front than another one.
pub(crate) fn comes_before(entry: (i128, u32), other: (i128, u32)) -> bool
    ensures { result ≡ is_lt (rank_order entry other) }
{
    entry.cmp(&other).is_lt()
}
