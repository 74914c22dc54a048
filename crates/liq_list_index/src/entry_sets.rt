//! The entries of the ordered list, ascending by key and, where keys are equal, by account. They
//! are kept in three parts, by what an `i64` can hold.
//!
//! ```text
//! key < -2^63      -2^63 <= key < 2^63      2^63 <= key
//! below: Longs     shorts: Chunks           above: Longs
//! ```
//!
//! Each part ascends and has all entries of its keys, so the list is the three one behind the
//! other. What is next to a place is looked for in the place's own part, and in another one only
//! where that part has nothing on that side.

ghost use Rattle.std.specs.Prelude.{◌≡◌, [], ◌∷◌, ◌++◌, reverse, true, false, ℤ, ◌<ℤ◌, IfOk, IfSome, OnOk, OnErr};
ghost use Rattle.std.specs.Option.{option_or};
ghost use Rattle.liq_types.specs.Ranked.{IsAscending, first_of};
ghost use Rattle.liq_list_chunks.specs.Entries.{with_entry, without_entry, entry_before, entry_after};
ghost use Rattle.liq_list_index.specs.EntrySets.{AreParted, IsPartOf};

use crate::longs::Longs;
use liq_list_chunks::{Chunks, Entry};
use liq_types::NoMemory;
use std::alloc::Global;
use std::marker::Model;

// A key and an account.
pub(crate) type WideEntry = (i128, u32);

// Where an entry is kept.
enum Part {
    Below,
    Short(Entry),
    Above,
}

// The entries in their order. Contracts see the list. A key is what a trove owes over its stake,
// with 18 decimals, less what was spread since: it fits an i64 up to 9,223 LUSD for each ether, so
// nearly all entries are short.
#[derive(Drop)]
pub(crate) struct EntrySets {
    // Those whose keys are below all that an i64 can be.
    below: Longs,
    shorts: Chunks,
    // Those whose keys are above.
    above: Longs,
}

impl Model for EntrySets {
    ghost use Rattle.std.specs.Prelude.{List, ◌++◌};
    ghost use Rattle.liq_types.specs.Ranked.{Ranked};
    ghost use Rattle.liq_list_index.specs.EntrySets.{AreParted};

    ghost Value = { List Ranked };

    ghost view = { λ p. p.below ++ (p.shorts ++ p.above) };

    ghost invariant = { λ p. AreParted p.below p.shorts p.above };
}

impl EntrySets {
    // No entries.
    pub(crate) fn new(alloc: Global) -> EntrySets
        ensures { result ≡ [] }
    {
        EntrySets {
            below: Longs::new(alloc),
            shorts: Chunks::new(alloc),
            above: Longs::new(alloc),
        }
    }

    // These entries at once.
    pub(crate) fn of(alloc: Global, list: &[WideEntry]) -> Result<EntrySets, NoMemory>
        requires { IsAscending list.now }
        ensures { IfOk result (λ places. places ≡ list.now) }
    {
        let mut below = Longs::new(alloc);
        let mut shorts = Vec::new(alloc);
        let mut above = Longs::new(alloc);
        for place in list {
            add(&mut below, &mut shorts, &mut above, *place)?;
        }
        Ok(EntrySets {
            below,
            shorts: Chunks::of(alloc, &shorts)?,
            above,
        })
    }

    // Puts an entry in. Where there is no memory all is as before.
    pub(crate) fn insert(&mut self, place: WideEntry) -> Result<(), NoMemory>
        ensures ascending { IsAscending self.new }
        ensures entered { OnOk result (self.new ≡ with_entry self.old place) }
        ensures err { OnErr result (self.new ≡ self.old) }
    {
        match part_of(place) {
            Part::Below => self.below.insert(place),
            Part::Short(entry) => self.shorts.insert(entry),
            Part::Above => self.above.insert(place),
        }
    }

    // Takes an entry out, if it is there.
    pub(crate) fn remove(&mut self, place: WideEntry)
        ensures ascending { IsAscending self.new }
        ensures left { self.new ≡ without_entry self.old place }
    {
        match part_of(place) {
            Part::Below => self.below.remove(place),
            Part::Short(entry) => self.shorts.remove(entry),
            Part::Above => self.above.remove(place),
        }
    }

    // Puts a short entry in another's place. Where there is no memory all is as before.
    pub(crate) fn replace(&mut self, from: Entry, to: Entry) -> Result<(), NoMemory>
        ensures replaced { OnOk result (self.new ≡ with_entry (without_entry self.old from) to) }
        ensures err { OnErr result (self.new ≡ self.old) }
    {
        if self.shift(from, to) {
            return Ok(());
        }
        self.insert(wide(to))?;
        if from != to {
            self.remove(wide(from));
        }
        Ok(())
    }

    // Puts a short entry in another's place where both are behind the first of one chunk, which
    // takes no memory. Tells whether it did; where it didn't, all is as before.
    fn shift(&mut self, from: Entry, to: Entry) -> bool
        ensures ascending { IsAscending self.new }
        ensures shifted { result ≡ true → self.new ≡ with_entry (without_entry self.old from) to }
        ensures stays { result ≡ false → self.new ≡ self.old }
    {
        self.shorts.shift(from, to)
    }

    // The entries next before a place and next after it.
    pub(crate) fn beside(&self, place: WideEntry) -> (Option<WideEntry>, Option<WideEntry>)
        ensures { result ≡ (entry_before self.now place, entry_after self.now place) }
    {
        let EntrySets {
            below,
            shorts,
            above,
        } = self;
        match part_of(place) {
            Part::Below => (
                below.before(place),
                or_first_not_below(below.after(place), shorts, above),
            ),
            Part::Short(entry) => {
                let (before, after) = shorts.beside(entry);
                (or_last_below(before, below), or_first_above(after, above))
            }
            Part::Above => (
                or_last_not_above(above.before(place), below, shorts),
                above.after(place),
            ),
        }
    }

    // The first of all.
    pub(crate) fn first(&self) -> Option<WideEntry>
        ensures first { result ≡ first_of self.now }
        ensures least { (key : ℤ) → key <ℤ i128.MIN → IfSome result (λ e. key <ℤ e.0) }
    {
        or_first_not_below(self.below.first(), &self.shorts, &self.above)
    }
}

// Puts an entry that comes after all others into its part.
fn add(
    below: &mut Longs,
    shorts: &mut Vec<Entry>,
    above: &mut Longs,
    place: WideEntry,
) -> Result<(), NoMemory>
    requires parted { AreParted below.old shorts.old.items above.old }
    requires last { IsAscending ((below.old ++ (shorts.old.items ++ above.old)) ++ place ∷ []) }
    ensures parted { OnOk result (AreParted below.new shorts.new.items above.new) }
    ensures added { OnOk result (below.new ++ (shorts.new.items ++ above.new)
        ≡ (below.old ++ (shorts.old.items ++ above.old)) ++ place ∷ []) }
{
    match part_of(place) {
        Part::Below => below.insert(place),
        Part::Short(entry) => {
            let Ok(()) = shorts.push(entry) else {
                return Err(NoMemory);
            };
            Ok(())
        }
        Part::Above => above.insert(place),
    }
}

fn wide(entry: Entry) -> WideEntry
    ensures { result ≡ entry }
{
    (i128::from(entry.0), entry.1)
}

// An entry, or where there is none the first whose key is not below.
fn or_first_not_below(found: Option<WideEntry>, shorts: &Chunks, above: &Longs) -> Option<WideEntry>
    ensures first { result ≡ option_or found (first_of (shorts.now ++ above.now)) }
    ensures least { (key : ℤ) → key <ℤ i128.MIN → IfSome found (λ e. key <ℤ e.0)
        → IfSome result (λ e. key <ℤ e.0) }
{
    match found {
        None => or_first_above(shorts.first(), above),
        found => found,
    }
}

// A short entry, or where there is none the first whose key is above.
fn or_first_above(found: Option<Entry>, above: &Longs) -> Option<WideEntry>
    ensures first { result ≡ option_or found (first_of above.now) }
    ensures least { (key : ℤ) → key <ℤ i128.MIN → IfSome result (λ e. key <ℤ e.0) }
{
    match found {
        Some((key, account)) => Some((i128::from(key), account)),
        None => above.first(),
    }
}

// An entry, or where there is none the last whose key is not above.
fn or_last_not_above(found: Option<WideEntry>, below: &Longs, shorts: &Chunks) -> Option<WideEntry>
    ensures { result ≡ option_or found (first_of (reverse (below.now ++ shorts.now))) }
{
    match found {
        None => or_last_below(shorts.last(), below),
        found => found,
    }
}

// A short entry, or where there is none the last whose key is below.
fn or_last_below(found: Option<Entry>, below: &Longs) -> Option<WideEntry>
    ensures { result ≡ option_or found (first_of (reverse below.now)) }
{
    match found {
        Some((key, account)) => Some((i128::from(key), account)),
        None => below.last(),
    }
}

// Where an entry is kept.
fn part_of(place: WideEntry) -> Part
    ensures { IsPartOf place result }
{
    let (key, account) = place;
    match i64::try_from(key) {
        Ok(key) => Part::Short((key, account)),
        Err(_) if key < 0 => Part::Below,
        Err(_) => Part::Above,
    }
}
