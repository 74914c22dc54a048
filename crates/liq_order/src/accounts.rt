//! At which place the node of each account is. Outside of this module an account is looked up by
//! [`Accounts::find`] and [`Accounts::take`] alone, and each of the two takes exactly one step.

ghost use Rattle.std.specs.Prelude.{◌≡◌, ℕ, ◌+◌, ◌<◌, ◌≤◌, ◌^◌, length, None, Some, IsOk, IsSome, IfSome, IfOk, IfErr, OnOk, vec_capacity};
ghost use Rattle.std.specs.List.{filter};
ghost use Rattle.liq_order.specs.Chained.{rows_from};
ghost use Rattle.liq_order.specs.Listed.{AreDistinct};
ghost use Rattle.liq_order.specs.Accounts.{AreRows, IsRowAt, IsGapFor, IsStrict, account_at, place_of, row_of, mark, has_place, unless_marked, SamePlaces, PlacesWith};

use crate::at_once::rows_of;
use crate::places::NodeNo;
use liq_types::{NoMemory, Steps};
use std::alloc::Global;
use std::marker::Model;
use std::sync::ledger::Ledger;

// What stands for the place in a marked row, that of an account that left. No node is at this
// place: there are 2^32 - 1 nodes at most, and the place of the last one is 2^32 - 2.
const MARK: NodeNo = NodeNo(u32::MAX);

/// A row for each account, with its place, in ascending accounts. The row of an account that left
/// is only marked, so that no row moves where it leaves, nor where it comes again. Once more than a
/// quarter of the rows is marked, all marked ones go together.
#[derive(Drop)]
pub(crate) struct Accounts {
    rows: Vec<(u32, NodeNo)>,
    // So many rows are marked.
    marked: usize,
    // Where the row is that was marked last, unless rows have moved since: mostly its account is
    // the next to come.
    last: Option<usize>,
}

impl Model for Accounts {
    ghost use Rattle.std.specs.Prelude.{◌+◌, ◌-◌, vec_len, vec_capacity};
    ghost use Rattle.liq_order.specs.Accounts.{Rows, AreRows};

    ghost Value = { Rows };

    ghost view = { λ p. record {
      rows = p.rows.items;
      marked = p.marked;
      room = vec_capacity p.rows + p.marked - vec_len p.rows;
    } };

    ghost invariant = { λ p. AreRows p.rows.items p.marked };
}

impl Accounts {
    pub fn new(alloc: Global) -> Accounts
        ensures { (account : ℕ) → place_of result account ≡ None }
    {
        Accounts {
            rows: Vec::new(alloc),
            marked: 0,
            last: None,
        }
    }

    /// The places of these entries' accounts, each of its entry's number. No account stands twice.
    pub fn of(alloc: Global, entries: &[(i128, u32)]) -> Result<Accounts, NoMemory>
        requires few { length entries.now < 2 ^ 32 }
        requires distinct { AreDistinct entries.now }
        ensures { IfOk result (λ accounts. (account : ℕ)
            → place_of accounts account ≡ row_of (rows_from 0 entries.now) account) }
    {
        let mut rows = rows_of(alloc, entries)?;
        rows.sort_unstable_by_key(|&(account, _)| account);
        Ok(Accounts {
            rows,
            marked: 0,
            last: None,
        })
    }

    /// Room for so many more accounts. Where there is memory it is beside the marked rows, which
    /// need not go then. The places stay. `NoMemory` only where the marked rows would not make room
    /// either.
    pub fn reserve(&mut self, more: usize) -> Result<(), NoMemory>
        ensures same { SamePlaces self.old self.new }
        ensures room { OnOk result (more ≤ self.new.room) }
        ensures beside { OnOk result (more + self.new.marked ≤ self.new.room) }
        ensures kept { self.old.room ≤ self.new.room }
        ensures had { more ≤ self.old.room → IsOk result }
    {
        match self.rows.reserve(more) {
            Ok(()) => Ok(()),
            Err(_) => self.reserve_by_compacting(more),
        }
    }

    // Without memory the marked rows go, which may make room.
    fn reserve_by_compacting(&mut self, more: usize) -> Result<(), NoMemory>
        ensures same { SamePlaces self.old self.new }
        ensures beside { OnOk result (more + self.new.marked ≤ self.new.room) }
        ensures kept { self.old.room ≤ self.new.room }
        ensures had { more ≤ self.old.room → IsOk result }
    {
        self.compact();
        if more <= self.rows.capacity() - self.rows.len() {
            Ok(())
        } else {
            Err(NoMemory)
        }
    }

    /// The place of an account, if it has one.
    pub fn find<L: Ledger>(&self, account: u32, steps: &mut Steps<L>) -> Option<NodeNo>
        ensures place { result ≡ place_of self.now account }
        ensures step { steps.new ≡ steps.old + 1 }
    {
        steps.tick();
        match self.search(account) {
            Ok(at) => unmarked(self.rows[at].1),
            Err(_) => None,
        }
    }

    /// An account without a place gets this one. It takes no step of its own, and shows nothing: it
    /// is a part of the step that changes the list.
    pub fn put(&mut self, account: u32, place: NodeNo)
        requires absent { place_of self.old account ≡ None }
        requires node { place.0 < mark }
        requires room { 1 ≤ self.old.room }
        ensures places { PlacesWith self.old account (Some place) self.new }
        ensures room { self.new.room + 1 ≡ self.old.room }
    {
        match self.search(account) {
            Ok(at) => self.give_back(at, account, place),
            Err(at) => {
                if self.rows.len() < self.rows.capacity() {
                    self.add(at, account, place);
                } else {
                    self.add_compacted(account, place);
                }
            }
        }
    }

    /// An account loses its place, which is the answer.
    pub fn take<L: Ledger>(&mut self, account: u32, steps: &mut Steps<L>) -> NodeNo
        requires { IsSome (place_of self.old account) }
        ensures place { Some result ≡ place_of self.old account }
        ensures places { PlacesWith self.old account None self.new }
        ensures room { self.new.room ≡ self.old.room + 1 }
        ensures step { steps.new ≡ steps.old + 1 }
    {
        steps.tick();
        match self.search(account) {
            Ok(at) => {
                let place = self.rows[at].1;
                self.mark(at, account);
                place
            }
            Err(_) => unreachable!(),
        }
    }

    // The row of an account that left is used again.
    fn give_back(&mut self, at: usize, account: u32, place: NodeNo)
        requires row { IsRowAt self.old.rows account at }
        requires absent { place_of self.old account ≡ None }
        requires node { place.0 < mark }
        ensures places { PlacesWith self.old account (Some place) self.new }
        ensures room { self.new.room + 1 ≡ self.old.room }
    {
        self.rows[at] = (account, place);
        self.marked -= 1;
        self.last = None;
    }

    // A row more.
    fn add(&mut self, at: usize, account: u32, place: NodeNo)
        requires gap { IsGapFor self.old.rows account at }
        requires node { place.0 < mark }
        requires room { self.old.marked < self.old.room }
        ensures places { PlacesWith self.old account (Some place) self.new }
        ensures room { self.new.room + 1 ≡ self.old.room }
    {
        match self.rows.insert(at, (account, place)) {
            Ok(()) => {}
            Err(_) => unreachable!(),
        }
    }

    // A row more, once the marked ones are gone.
    fn add_compacted(&mut self, account: u32, place: NodeNo)
        requires absent { place_of self.old account ≡ None }
        requires node { place.0 < mark }
        requires room { 1 ≤ self.old.room }
        ensures places { PlacesWith self.old account (Some place) self.new }
        ensures room { self.new.room + 1 ≡ self.old.room }
    {
        self.compact();
        match self.search(account) {
            Ok(_) => unreachable!(),
            Err(at) => self.add(at, account, place),
        }
    }

    // The marked rows go.
    fn compact(&mut self)
        ensures none { self.new.marked ≡ 0 }
        ensures places { SamePlaces self.old self.new }
        ensures room { self.new.room ≡ self.old.room }
    {
        drop_marked(&mut self.rows);
        self.marked = 0;
    }

    // Marks the row of an account, which loses its place by it. Where more than a quarter of the
    // rows would be marked, all marked ones go at once. One row may stay marked however few there
    // are, so that little moves among few.
    fn mark(&mut self, at: usize, account: u32)
        requires row { IsRowAt self.old.rows account at }
        requires there { IsSome (place_of self.old account) }
        ensures places { PlacesWith self.old account None self.new }
        ensures room { self.new.room ≡ self.old.room + 1 }
    {
        self.rows[at] = (account, MARK);
        if self.marked <= self.rows.len() / 4 {
            self.marked += 1;
            self.last = Some(at);
        } else {
            drop_marked(&mut self.rows);
            self.marked = 0;
        }
    }

    // Where the account's row is, or where it would go.
    fn search(&self, account: u32) -> Result<usize, usize>
        ensures found { IfOk result (IsRowAt self.now.rows account) }
        ensures absent { IfErr result (IsGapFor self.now.rows account) }
        ensures kept { AreRows self.now.rows self.now.marked }
    {
        // odd: field read
        let _ = &self.last;
        if let Some(at) = self.last_at(account) {
            return Ok(at);
        }
        let (low, high) = self.window(account);
        let part = &self.rows[low..high];
        match part.binary_search_by_key(&account, |&(a, _)| a) {
            Ok(at) => Ok(low + at),
            Err(at) => Err(low + at),
        }
    }

    // Where the account's row is, if it is the one that was marked last.
    fn last_at(&self, account: u32) -> Option<usize>
        ensures { IfSome result (IsRowAt self.now.rows account) }
    {
        let at = self.last?;
        if self.rows.get(at)?.0 == account {
            Some(at)
        } else {
            None
        }
    }

    // Between which indices the account's row is, or would go. It is no further from the first row
    // than the account is from the first one, and so with the last: where accounts lie close
    // together little is left to search.
    fn window(&self, account: u32) -> (usize, usize)
        ensures ordered { result.0 ≤ result.1 }
        ensures inside { result.1 ≤ length self.now.rows }
        ensures smaller { (j : ℕ) → j < result.0 → account_at self.now.rows j < account }
        ensures greater { (j : ℕ) → result.1 ≤ j → j < length self.now.rows
            → account < account_at self.now.rows j }
        ensures strict { IsStrict self.now.rows }
    {
        let (Some(&(first, _)), Some(&(last, _))) = (self.rows.first(), self.rows.last()) else {
            return (0, 0);
        };
        let count = self.rows.len();
        if account < first {
            return (0, 0);
        }
        if last < account {
            return (count, count);
        }
        let behind = (last - account) as usize;
        let before = (account - first) as usize;
        (count.saturating_sub(behind + 1), count.min(before + 1))
    }
}

// A place, where it is not the mark.
fn unmarked(place: NodeNo) -> Option<NodeNo>
    ensures { result ≡ unless_marked place }
{
    if place == MARK { None } else { Some(place) }
}

// The rows of accounts that have a place stay.
fn drop_marked(rows: &mut Vec<(u32, NodeNo)>)
    ensures rows { rows.new.items ≡ filter has_place rows.old.items }
    ensures capacity { vec_capacity rows.new ≡ vec_capacity rows.old }
{
    rows.retain(|&(_, place)| place != MARK);
}
