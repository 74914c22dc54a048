//! Entries of any keys, in one ordered set. Only those stand here whose keys don't fit an `i64`,
//! and they are few; `places` has the others in chunks.
//!
//! A key is kept in two halves, `high * 2^64 + low`. As `high` is signed and `low` is not, halves
//! compare in turn just as keys do, and where keys are equal the accounts decide.

ghost use Rattle.std.specs.Prelude.{◌≡◌, ◌<◌, ◌^◌, [], ℤ, ◌<ℤ◌, IfSome, reverse, option_map, OnOk, OnErr};
ghost use Rattle.liq_types.specs.Ranked.{IsAscending, first_of};
ghost use Rattle.liq_list_chunks.specs.Entries.{with_entry, without_entry, entry_before, entry_after};
ghost use Rattle.liq_list_index.specs.EntrySets.{ranked_long};

use crate::entry_sets::WideEntry;
use liq_types::NoMemory;
use std::alloc::Global;
use std::collections::BTreeSet;
use std::marker::Model;
use std::ops::Bound;

// One of the upper half of a key counts so many of the lower half.
const UPPER: i128 = 1 << 64;

// An entry: its key in two halves, so that it takes 24 bytes where a key of 128 bits beside an
// account takes 32.
#[derive(Clone, Copy, PartialEq, Eq, PartialOrd, Ord)]
struct Long {
    high: i64,
    low: u64,
    account: u32,
}

impl Long {
    fn of(place: WideEntry) -> Long
        ensures same { ranked_long result ≡ place }
        ensures low { result.low < 2 ^ 64 }
    {
        let (key, account) = place;
        let high = key >> 64;
        Long {
            high: high as i64,
            low: (key - high * UPPER) as u64,
            account,
        }
    }

    fn place(self) -> WideEntry
        ensures { result ≡ ranked_long self }
    {
        (self.high as i128 * UPPER + self.low as i128, self.account)
    }
}

// The entries in their order. Contracts see the list.
#[derive(Drop)]
pub(crate) struct Longs {
    entries: BTreeSet<Long>,
}

impl Model for Longs {
    ghost use Rattle.std.specs.Prelude.{List, map};
    ghost use Rattle.liq_types.specs.Ranked.{Ranked, IsAscending};
    ghost use Rattle.liq_list_index.specs.EntrySets.{ranked_long, AreHalved};

    ghost Value = { List Ranked };

    ghost view = { λ p. map ranked_long p.entries.keys };

    ghost invariant = { λ p. AreHalved p.entries.keys
        × IsAscending (map ranked_long p.entries.keys) };
}

impl Longs {
    // No entries.
    pub(crate) fn new(alloc: Global) -> Longs
        ensures { result ≡ [] }
    {
        Longs {
            entries: BTreeSet::new(alloc),
        }
    }

    // Puts an entry in. Where there is no memory all is as before.
    pub(crate) fn insert(&mut self, place: WideEntry) -> Result<(), NoMemory>
        ensures ascending { IsAscending self.new }
        ensures entered { OnOk result (self.new ≡ with_entry self.old place) }
        ensures err { OnErr result (self.new ≡ self.old) }
    {
        let Ok(_) = self.entries.insert(Long::of(place)) else {
            return Err(NoMemory);
        };
        Ok(())
    }

    // Takes an entry out, if it is there.
    pub(crate) fn remove(&mut self, place: WideEntry)
        ensures ascending { IsAscending self.new }
        ensures left { self.new ≡ without_entry self.old place }
    {
        let _ = self.entries.remove(&Long::of(place));
    }

    // The entry next before a place.
    pub(crate) fn before(&self, place: WideEntry) -> Option<WideEntry>
        ensures { result ≡ entry_before self.now place }
    {
        let range = (Bound::Unbounded, Bound::Excluded(Long::of(place)));
        place_of(self.entries.range(range).next_back().copied())
    }

    // The entry next after a place.
    pub(crate) fn after(&self, place: WideEntry) -> Option<WideEntry>
        ensures { result ≡ entry_after self.now place }
    {
        let range = (Bound::Excluded(Long::of(place)), Bound::Unbounded);
        place_of(self.entries.range(range).next().copied())
    }

    // The last of all.
    pub(crate) fn last(&self) -> Option<WideEntry>
        ensures { result ≡ first_of (reverse self.now) }
    {
        place_of(self.entries.last().copied())
    }

    // The first of all.
    pub(crate) fn first(&self) -> Option<WideEntry>
        ensures first { result ≡ first_of self.now }
        ensures least { (key : ℤ) → key <ℤ i128.MIN → IfSome result (λ e. key <ℤ e.0) }
    {
        place_of(self.entries.first().copied())
    }
}

fn place_of(found: Option<Long>) -> Option<WideEntry>
    ensures place { result ≡ option_map ranked_long found }
    ensures least { (key : ℤ) → key <ℤ i128.MIN → IfSome result (λ e. key <ℤ e.0) }
{
    match found {
        Some(entry) => Some(entry.place()),
        None => None,
    }
}
