//! The guide of a protocol's list.
ghost use Rattle.std.specs.Prelude.{◌≡◌, ◌↔◌, [], true, false, not, filter_map, IfOk, OnOk, OnErr};
ghost use Rattle.liq_list_index.specs.Followed.{all_listed, hint_of_last, put_by};
ghost use Rattle.liq_core_hinted.specs.ListGuides.{IsGuideOf};

use liq_core::Protocol;
use liq_core::laws::{lists_stand, protocols_are_sound_states, protocols_stand};
use liq_list_index::Guide;
use liq_types::{Hint, ListChange, NoMemory};
use std::alloc::Global;

/// Room for so many changes is kept from command to command. Few commands make more.
const ROOM_KEPT: usize = 64;

/// The guide of a protocol's list, which is ahead of it while room is reserved for a command.
#[derive(Drop)]
pub(crate) struct ListGuide {
    pub(crate) alloc: Global,
    pub(crate) guide: Guide,
    /// What the guide has followed and the protocol has not made.
    pub(crate) ahead: Vec<ListChange>,
    /// The protocol has made something else: the guide says nothing of its list.
    pub(crate) is_stale: bool,
}

impl ListGuide {
    /// The guide of an empty list.
    pub(crate) fn new(alloc: Global) -> ListGuide
        ensures { IsGuideOf [] result }
    {
        ListGuide {
            alloc,
            guide: Guide::new(alloc),
            ahead: Vec::new(alloc),
            is_stale: false,
        }
    }

    /// The guide of a protocol's list. There may be no memory for it.
    pub(crate) fn of(alloc: Global, protocol: &Protocol) -> Result<ListGuide, NoMemory>
        ensures { IfOk result (λ g. (g.guide ≡ protocol.now.list) × (g.ahead.items ≡ [])) }
    {
        Ok(ListGuide {
            alloc,
            guide: guide_of(alloc, protocol)?,
            ahead: Vec::new(alloc),
            is_stale: false,
        })
    }

    /// Follows the changes that a command will make, and tells between whom the account will stand
    /// that they put last, if any. A command that was followed before and has not been made since
    /// is forgotten.
    pub(crate) fn follow(
        &mut self,
        protocol: &Protocol,
        changes: &[ListChange],
    ) -> Result<Option<Hint>, NoMemory>
        requires { IsGuideOf protocol.now.list self.old }
        ensures same { IsGuideOf protocol.now.list self.new }
        ensures exact { IfOk result (λ hint. hint
            ≡ hint_of_last (all_listed protocol.now.list changes.now) changes.now) }
    {
        self.catch_up(protocol)?;
        self.ahead.extend_from_slice(changes)?;
        match self.guide.follow(changes) {
            Ok(()) => Ok(self.guide.hint(changes)),
            Err(NoMemory) => {
                self.ahead.clear();
                Err(NoMemory)
            }
        }
    }

    /// It has the protocol's list as it is. Where it hasn't, it is made anew.
    fn catch_up(&mut self, protocol: &Protocol) -> Result<(), NoMemory>
        requires { IsGuideOf protocol.now.list self.old }
        ensures ok { OnOk result ((self.new.guide ≡ protocol.now.list)
            × (self.new.ahead.items ≡ [])) }
        ensures err { OnErr result (IsGuideOf protocol.now.list self.new) }
    {
        if self.is_stale || !self.ahead.is_empty() {
            *self = ListGuide::of(self.alloc, protocol)?;
        }
        Ok(())
    }

    /// Whether it has followed just these changes.
    pub(crate) fn has_followed(&self, changes: &[ListChange]) -> bool
        ensures { (result ≡ true) ↔ ((self.now.ahead.items ≡ changes.now)
            × (self.now.is_stale ≡ false)) }
    {
        !self.is_stale && are_same(&self.ahead, changes)
    }

    /// The protocol has made a command: the one that was followed, or another.
    pub(crate) fn settle(&mut self, is_followed: bool)
        ensures guide { self.new.guide ≡ self.old.guide }
        ensures made { is_followed ≡ true → self.new.ahead.items ≡ [] }
        ensures stale { self.new.is_stale ≡ not is_followed }
    {
        self.is_stale = !is_followed;
        if self.ahead.capacity() <= ROOM_KEPT {
            self.ahead.clear();
        } else {
            self.ahead = Vec::new(self.alloc);
        }
    }
}

/// The guide of a protocol's list as it is.
fn guide_of(alloc: Global, protocol: &Protocol) -> Result<Guide, NoMemory>
    ensures { IfOk result (λ guide. guide ≡ protocol.now.list) }
{
    // odd: law called
    protocols_are_sound_states(protocol);
    lists_stand(protocol);
    protocols_stand(protocol);
    let changes = protocol.list(alloc)?;
    let list = puts_of(alloc, changes)?;
    Guide::of(alloc, &list)
}

/// The entries that changes put, in their order. The changes are let go.
fn puts_of(alloc: Global, changes: Vec<ListChange>) -> Result<Vec<(i128, u32)>, NoMemory>
    ensures { IfOk result (λ puts. puts.items ≡ filter_map put_by changes.items) }
{
    let puts = changes.iter().filter_map(|change| put_by(change));
    Ok(puts.collect(alloc)?)
}

/// The entry that a change puts, if it puts one.
fn put_by(change: &ListChange) -> Option<(i128, u32)>
    ensures { result ≡ put_by change.now }
{
    match *change {
        ListChange::Put { key, account } => Some((key, account)),
        ListChange::Gone { .. } | ListChange::Words { .. } => None,
    }
}

/// Whether two lists have the same changes.
fn are_same(left: &[ListChange], right: &[ListChange]) -> bool
    ensures { (result ≡ true) ↔ (left.now ≡ right.now) }
{
    if left.len() != right.len() {
        return false;
    }
    for i in 0..left.len() {
        if !is_same(&left[i], &right[i]) {
            return false;
        }
    }
    true
}

fn is_same(change: &ListChange, other: &ListChange) -> bool
    ensures { (result ≡ true) ↔ (change.now ≡ other.now) }
{
    match (*change, *other) {
        (ListChange::Put { key, account }, ListChange::Put { key: k, account: a }) => {
            key == k && account == a
        }
        (ListChange::Gone { account }, ListChange::Gone { account: a }) => account == a,
        (
            ListChange::Words {
                snap_stakes,
                snap_coll,
                sum_debt,
            },
            ListChange::Words {
                snap_stakes: stakes,
                snap_coll: coll,
                sum_debt: debt,
            },
        ) => snap_stakes == stakes && snap_coll == coll && sum_debt == debt,
        _ => false,
    }
}
