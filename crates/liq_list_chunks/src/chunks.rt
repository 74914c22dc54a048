//! Entries in ascending order, in chunks.

ghost use Rattle.std.specs.Prelude.{◌≡◌, ◌+◌, ◌++◌, ◌-◌, ◌<◌, ◌≤◌, [], ◌∷◌, true, false, List, length, slice_index_or, ℕ, ℤ, ◌<ℤ◌, take, drop, vec_len, vec_capacity, IfSome, IfOk, IsOk, OnOk, OnErr};
ghost use Rattle.std.specs.List.{Contains};
ghost use Rattle.std.specs.Option.{option_or};
ghost use Rattle.std.specs.Ordering.{is_eq, is_lt};
ghost use Rattle.liq_types.specs.Ranked.{Ranked, rank_order, IsAscending, first_of};
ghost use Rattle.liq_list_chunks.specs.Entries.{with_entry, without_entry, entry_before, entry_after};
ghost use Rattle.liq_list_chunks.specs.Chunks.{BelongsTo, lists, entries, joined, last_of, last_or, IsPlace, AreShort, BelongsToEither};

use liq_types::NoMemory;
use std::alloc::Global;
use std::marker::Model;

/// A key and an account.
pub type Entry = (i64, u32);

// The most entries of a chunk behind its first.
const MOST: usize = 63;

// How many of them stay where a chunk is cut in two, and the most of a chunk that two are joined
// to.
const HALF: usize = 31;

/// Entries in ascending order, by key and then by account. Contracts see the list.
///
/// They stand in chunks of at most 64, each in its own memory. The first of each chunk stands
/// apart: among those a chunk is found, and they are few enough to stay near the processor. A full
/// chunk is cut in two. Where an entry leaves, chunks beside each other that have at most 32
/// together become one, if there is memory for it; a chunk leaves with its last entry.
#[derive(Drop)]
pub struct Chunks {
    firsts: Vec<Entry>,
    rests: Vec<Vec<Entry>>,
}

impl Model for Chunks {
    ghost use Rattle.std.specs.Prelude.{◌≡◌, List, length};
    ghost use Rattle.liq_types.specs.Ranked.{Ranked, IsAscending};
    ghost use Rattle.liq_list_chunks.specs.Chunks.{entries, lists, AreShort};

    ghost Value = { List Ranked };

    ghost view = { λ p. entries p.firsts p.rests };

    ghost invariant = { λ p. (length p.firsts.items ≡ length p.rests.items)
        × IsAscending (entries p.firsts p.rests) × AreShort (lists p.rests) };
}

impl Chunks {
    /// No entries.
    pub fn new(alloc: Global) -> Chunks
        ensures { result ≡ [] }
    {
        Chunks {
            firsts: Vec::new(alloc),
            rests: Vec::new(alloc),
        }
    }

    /// These entries at once, in chunks of 32 and the last of what is left, so that each has room
    /// for as many more.
    pub fn of(alloc: Global, entries: &[Entry]) -> Result<Chunks, NoMemory>
        requires { IsAscending entries.now }
        ensures { IfOk result (λ chunks. chunks ≡ entries.now) }
    {
        let mut firsts = Vec::new(alloc);
        let mut rests = Vec::new(alloc);
        let mut left = entries;
        while let [first, more @ ..] = left {
            let (rest, behind) = more.split_at(more.len().min(HALF));
            add_chunk(&mut firsts, &mut rests, *first, rest)?;
            left = behind;
        }
        Ok(Chunks { firsts, rests })
    }

    /// Puts an entry in, if it isn't there. Where there is no memory all is as before.
    #[tactic(auto, using(crate::proofs::Lists::entered_ascending))]
    pub fn insert(&mut self, entry: Entry) -> Result<(), NoMemory>
        ensures ascending { IsAscending self.new }
        ensures entered { OnOk result (self.new ≡ with_entry self.old entry) }
        ensures err { OnErr result (self.new ≡ self.old) }
    {
        if self.firsts.is_empty() {
            return begin(&mut self.firsts, &mut self.rests, entry);
        }
        let chunk = chunk_of(&self.firsts, entry);
        if self.rests[chunk].len() < MOST {
            return enter(&mut self.firsts, &mut self.rests, chunk, entry);
        }
        split(&mut self.firsts, &mut self.rests, chunk, entry)?;
        let chunk = half_of(&self.firsts, chunk, entry);
        enter(&mut self.firsts, &mut self.rests, chunk, entry)
    }

    /// Takes an entry out, if it is there. That needs no memory.
    #[tactic(auto, using(crate::proofs::Lists::left_ascending))]
    pub fn remove(&mut self, entry: Entry)
        ensures ascending { IsAscending self.new }
        ensures left { self.new ≡ without_entry self.old entry }
    {
        if self.firsts.is_empty() {
            return;
        }
        let chunk = chunk_of(&self.firsts, entry);
        take_out(&mut self.firsts, &mut self.rests, chunk, entry);
        join(&mut self.firsts, &mut self.rests, chunk + 1);
        join(&mut self.firsts, &mut self.rests, chunk);
    }

    /// Puts an entry in another's place, where both belong behind the first of one chunk: that
    /// takes no memory. Tells whether it did; where it didn't, all is as before.
    #[tactic(auto, using(crate::proofs::Lists::entered_ascending, crate::proofs::Lists::left_ascending))]
    pub fn shift(&mut self, from: Entry, to: Entry) -> bool
        ensures ascending { IsAscending self.new }
        ensures shifted { result ≡ true → self.new ≡ with_entry (without_entry self.old from) to }
        ensures there { result ≡ true → Contains self.old from }
        ensures stays { result ≡ false → self.new ≡ self.old }
    {
        if self.firsts.is_empty() {
            return false;
        }
        let chunk = chunk_of(&self.firsts, from);
        shift_in_chunk(&self.firsts, &mut self.rests, chunk, from, to)
    }

    /// The entries next before a place and next after it.
    pub fn beside(&self, place: Entry) -> (Option<Entry>, Option<Entry>)
        ensures { result ≡ (entry_before self.now place, entry_after self.now place) }
    {
        if self.firsts.is_empty() {
            return (None, None);
        }
        let chunk = chunk_of(&self.firsts, place);
        beside_chunk(&self.firsts, &self.rests, chunk, place)
    }

    /// The first of all.
    pub fn first(&self) -> Option<Entry>
        ensures first { result ≡ first_of self.now }
        ensures least { (key : ℤ) → key <ℤ i64.MIN → IfSome result (λ e. key <ℤ e.0) }
    {
        self.firsts.first().copied()
    }

    /// The last of all.
    pub fn last(&self) -> Option<Entry>
        ensures { result ≡ last_of self.now }
    {
        match self.firsts.len() {
            0 => None,
            chunks => Some(last_in(self.firsts[chunks - 1], &self.rests[chunks - 1])),
        }
    }

    /// How many chunks there are. Each takes memory of its own.
    pub fn chunks(&self) -> usize
        ensures { result ≤ length self.now }
    {
        self.firsts.len()
    }
}

fn is_before(a: Entry, b: Entry) -> bool
    ensures { result ≡ is_lt (rank_order a b) }
{
    a < b
}

fn is_same(a: Entry, b: Entry) -> bool
    ensures { result ≡ is_eq (rank_order a b) }
{
    a == b
}

// The chunk in which an entry stands, or would.
fn chunk_of(firsts: &[Entry], entry: Entry) -> usize
    requires { 0 < length firsts.now }
    ensures { BelongsTo firsts.now entry result }
{
    let mut low = 0;
    let mut high = firsts.len();
    while high - low > 1 {
        let middle = low + (high - low) / 2;
        if is_before(entry, firsts[middle]) {
            high = middle;
        } else {
            low = middle;
        }
    }
    low
}

// To which of a chunk and the one behind it an entry belongs.
fn half_of(firsts: &[Entry], chunk: usize, entry: Entry) -> usize
    requires { BelongsToEither firsts.now entry chunk }
    ensures belongs { BelongsTo firsts.now entry result }
    ensures either { (chunk ≤ result) × (result ≤ chunk + 1) }
{
    if is_before(entry, firsts[chunk + 1]) {
        chunk
    } else {
        chunk + 1
    }
}

// How many entries of a chunk stand before one.
fn place_in(rest: &[Entry], entry: Entry) -> usize
    ensures { IsPlace rest.now entry result }
{
    let mut at = 0;
    while at < rest.len() && is_before(rest[at], entry) {
        at += 1;
    }
    at
}

// Whether an entry is that at a place of a chunk.
fn stands_at(rest: &[Entry], at: usize, entry: Entry) -> bool
    ensures within { result ≡ true → at < length rest.now }
    ensures same { (d : Ranked) → at < length rest.now
        → is_eq (rank_order entry (slice_index_or rest.now at d)) ≡ result }
{
    match rest.get(at) {
        Some(found) => is_same(entry, *found),
        None => false,
    }
}

// Puts a chunk behind all others.
fn add_chunk(
    firsts: &mut Vec<Entry>,
    rests: &mut Vec<Vec<Entry>>,
    first: Entry,
    rest: &[Entry],
) -> Result<(), NoMemory>
    requires len { length firsts.old.items ≡ length rests.old.items }
    requires short { AreShort (lists rests.old) }
    requires few { length rest.now ≤ HALF }
    ensures len { OnOk result (length firsts.new.items ≡ length rests.new.items) }
    ensures short { OnOk result (AreShort (lists rests.new)) }
    ensures added { OnOk result (entries firsts.new rests.new
        ≡ entries firsts.old rests.old ++ (first ∷ rest.now)) }
{
    let mut kept = Vec::with_capacity(*rests.allocator(), MOST)?;
    kept.extend_from_slice(rest)?;
    let Ok(()) = firsts.push(first) else {
        return Err(NoMemory);
    };
    let Ok(()) = rests.push(kept) else {
        return Err(NoMemory);
    };
    Ok(())
}

// The first chunk, of one entry.
fn begin(firsts: &mut Vec<Entry>, rests: &mut Vec<Vec<Entry>>, entry: Entry) -> Result<(), NoMemory>
    requires firsts { firsts.old.items ≡ [] }
    requires rests { rests.old.items ≡ [] }
    ensures len { length firsts.new.items ≡ length rests.new.items }
    ensures short { AreShort (lists rests.new) }
    ensures ok { OnOk result (entries firsts.new rests.new ≡ entry ∷ []) }
    ensures err { OnErr result (firsts.new.items ≡ []) }
{
    let Ok(()) = rests.push(Vec::new(*rests.allocator())) else {
        return Err(NoMemory);
    };
    let Ok(()) = firsts.push(entry) else {
        rests.clear();
        return Err(NoMemory);
    };
    Ok(())
}

// The entries that come behind the first of a chunk's second half.
fn behind_half(rest: &Vec<Entry>) -> Result<Vec<Entry>, NoMemory>
    requires { HALF < vec_len rest.now }
    ensures { IfOk result (λ half. half.items ≡ drop (HALF + 1) rest.now.items) }
{
    let mut half = Vec::with_capacity(*rest.allocator(), MOST)?;
    half.extend_from_slice(&rest[HALF + 1..])?;
    Ok(half)
}

// Cuts a chunk in two. All entries stay, and another that belongs to the chunk then belongs to one
// of the two.
fn split(
    firsts: &mut Vec<Entry>,
    rests: &mut Vec<Vec<Entry>>,
    chunk: usize,
    entry: Entry,
) -> Result<(), NoMemory>
    requires belongs { BelongsTo firsts.old.items entry chunk }
    requires short { AreShort (lists rests.old) }
    requires len { length firsts.old.items ≡ length rests.old.items }
    requires full { (d : List Ranked) → HALF < length (slice_index_or (lists rests.old) chunk d) }
    ensures same { entries firsts.new rests.new ≡ entries firsts.old rests.old }
    ensures len { length firsts.new.items ≡ length rests.new.items }
    ensures either { OnOk result (BelongsToEither firsts.new.items entry chunk) }
    ensures short { AreShort (lists rests.new) }
    ensures room { OnOk result ((at : ℕ) (d : List Ranked) → chunk ≤ at → at ≤ chunk + 1
        → length (slice_index_or (lists rests.new) at d) < MOST) }
{
    let rest = &rests[chunk];
    let first = rest[HALF];
    let second = behind_half(rest)?;
    firsts.try_reserve(1)?;
    let Ok(()) = rests.insert(chunk + 1, second) else {
        return Err(NoMemory);
    };
    let Ok(()) = firsts.insert(chunk + 1, first) else {
        unreachable!();
    };
    rests[chunk].truncate(HALF);
    Ok(())
}

// Makes one of a chunk and the one before it, where they have at most 32 entries together and there
// is memory for it. All entries stay.
fn join(firsts: &mut Vec<Entry>, rests: &mut Vec<Vec<Entry>>, chunk: usize)
    requires len { length firsts.old.items ≡ length rests.old.items }
    requires short { AreShort (lists rests.old) }
    ensures same { entries firsts.new rests.new ≡ entries firsts.old rests.old }
    ensures len { length firsts.new.items ≡ length rests.new.items }
    ensures short { AreShort (lists rests.new) }
{
    if chunk == 0 || chunk >= rests.len() {
        return;
    }
    let more = rests[chunk].len() + 1;
    if rests[chunk - 1].len() + more > HALF {
        return;
    }
    let Ok(()) = rests[chunk - 1].try_reserve(more) else {
        return;
    };
    let first = firsts.remove(chunk);
    let second = rests.remove(chunk);
    append(&mut rests[chunk - 1], first, second);
}

// Puts a chunk's entries behind those of another.
fn append(rest: &mut Vec<Entry>, first: Entry, second: Vec<Entry>)
    requires room { vec_len rest.old + (vec_len second + 1) ≤ vec_capacity rest.old }
    ensures { rest.new.items ≡ rest.old.items ++ (first ∷ second.items) }
{
    let mut second = second;
    let Ok(()) = rest.push(first) else {
        unreachable!();
    };
    let Ok(()) = rest.append(&mut second) else {
        unreachable!();
    };
}

// Puts an entry into its chunk, if it isn't there.
fn enter(
    firsts: &mut Vec<Entry>,
    rests: &mut Vec<Vec<Entry>>,
    chunk: usize,
    entry: Entry,
) -> Result<(), NoMemory>
    requires len { length firsts.old.items ≡ length rests.old.items }
    requires ascending { IsAscending (entries firsts.old rests.old) }
    requires belongs { BelongsTo firsts.old.items entry chunk }
    requires short { AreShort (lists rests.old) }
    requires room { (d : List Ranked) → length (slice_index_or (lists rests.old) chunk d) < MOST }
    ensures len { length firsts.new.items ≡ length rests.new.items }
    ensures short { AreShort (lists rests.new) }
    ensures ok { OnOk result (entries firsts.new rests.new
        ≡ with_entry (entries firsts.old rests.old) entry) }
    ensures err { OnErr result (entries firsts.new rests.new ≡ entries firsts.old rests.old) }
{
    enter_chunk(&mut firsts[chunk], &mut rests[chunk], entry)
}

fn enter_chunk(first: &mut Entry, rest: &mut Vec<Entry>, entry: Entry) -> Result<(), NoMemory>
    requires { IsAscending (first.old ∷ rest.old.items) }
    ensures more { length rest.new.items ≤ length rest.old.items + 1 }
    ensures ok { OnOk result ((first.new ∷ rest.new.items)
        ≡ with_entry (first.old ∷ rest.old.items) entry) }
    ensures err { OnErr result ((first.new ∷ rest.new.items) ≡ (first.old ∷ rest.old.items)) }
{
    if is_before(entry, *first) {
        let Ok(()) = rest.insert(0, *first) else {
            return Err(NoMemory);
        };
        *first = entry;
        return Ok(());
    }
    if is_same(entry, *first) {
        return Ok(());
    }
    enter_rest(rest, entry)
}

fn enter_rest(rest: &mut Vec<Entry>, entry: Entry) -> Result<(), NoMemory>
    requires { IsAscending rest.old.items }
    ensures more { length rest.new.items ≤ length rest.old.items + 1 }
    ensures ok { OnOk result (rest.new.items ≡ with_entry rest.old.items entry) }
    ensures err { OnErr result (rest.new.items ≡ rest.old.items) }
    ensures room { vec_len rest.old < vec_capacity rest.old → IsOk result }
{
    let at = place_in(rest, entry);
    if stands_at(rest, at, entry) {
        return Ok(());
    }
    let Ok(()) = rest.insert(at, entry) else {
        return Err(NoMemory);
    };
    Ok(())
}

// Takes an entry out of its chunk, if it is there, and the chunk with its last.
fn take_out(firsts: &mut Vec<Entry>, rests: &mut Vec<Vec<Entry>>, chunk: usize, entry: Entry)
    requires len { length firsts.old.items ≡ length rests.old.items }
    requires ascending { IsAscending (entries firsts.old rests.old) }
    requires belongs { BelongsTo firsts.old.items entry chunk }
    requires short { AreShort (lists rests.old) }
    ensures len { length firsts.new.items ≡ length rests.new.items }
    ensures short { AreShort (lists rests.new) }
    ensures left { entries firsts.new rests.new
        ≡ without_entry (entries firsts.old rests.old) entry }
{
    if rests[chunk].is_empty() && is_same(entry, firsts[chunk]) {
        firsts.remove(chunk);
        rests.remove(chunk);
        return;
    }
    take_out_of_chunk(&mut firsts[chunk], &mut rests[chunk], entry);
}

fn take_out_of_chunk(first: &mut Entry, rest: &mut Vec<Entry>, entry: Entry)
    requires ascending { IsAscending (first.old ∷ rest.old.items) }
    requires more { rest.old.items ≡ [] → is_eq (rank_order entry first.old) ≡ false }
    ensures less { length rest.new.items ≤ length rest.old.items }
    ensures left { (first.new ∷ rest.new.items) ≡ without_entry (first.old ∷ rest.old.items) entry }
{
    if is_same(entry, *first) {
        *first = rest.remove(0);
        return;
    }
    take_out_of_rest(rest, entry);
}

// Tells whether the entry was there.
fn take_out_of_rest(rest: &mut Vec<Entry>, entry: Entry) -> bool
    requires { IsAscending rest.old.items }
    ensures left { rest.new.items ≡ without_entry rest.old.items entry }
    ensures there { result ≡ true → Contains rest.old.items entry }
    ensures room { result ≡ true → vec_len rest.new < vec_capacity rest.new }
    ensures less { result ≡ true → length rest.new.items + 1 ≡ length rest.old.items }
    ensures stays { result ≡ false → rest.new.items ≡ rest.old.items }
{
    let at = place_in(rest, entry);
    if !stands_at(rest, at, entry) {
        return false;
    }
    rest.remove(at);
    true
}

// Whether an entry belongs to a chunk, behind its first.
fn is_behind_first(firsts: &[Entry], chunk: usize, entry: Entry) -> bool
    requires { chunk < length firsts.now }
    ensures low { (d : Ranked) → result ≡ true
        → is_lt (rank_order (slice_index_or firsts.now chunk d) entry) ≡ true }
    ensures high { (d : Ranked) → result ≡ true → chunk + 1 < length firsts.now
        → is_lt (rank_order entry (slice_index_or firsts.now (chunk + 1) d)) ≡ true }
{
    is_before(firsts[chunk], entry) && is_before_chunk(firsts, chunk + 1, entry)
}

// Whether an entry comes before those of a chunk, if there is that chunk.
fn is_before_chunk(firsts: &[Entry], chunk: usize, entry: Entry) -> bool
    ensures { (d : Ranked) → result ≡ true → chunk < length firsts.now
        → is_lt (rank_order entry (slice_index_or firsts.now chunk d)) ≡ true }
{
    match firsts.get(chunk) {
        Some(first) => is_before(entry, *first),
        None => true,
    }
}

// Puts an entry in another's place in its chunk, if that one is there and both belong behind its
// first.
fn shift_in_chunk(
    firsts: &Vec<Entry>,
    rests: &mut Vec<Vec<Entry>>,
    chunk: usize,
    from: Entry,
    to: Entry,
) -> bool
    requires len { length firsts.now.items ≡ length rests.old.items }
    requires ascending { IsAscending (entries firsts.now rests.old) }
    requires belongs { BelongsTo firsts.now.items from chunk }
    requires short { AreShort (lists rests.old) }
    ensures len { length firsts.now.items ≡ length rests.new.items }
    ensures short { AreShort (lists rests.new) }
    ensures shifted { result ≡ true → entries firsts.now rests.new
        ≡ with_entry (without_entry (entries firsts.now rests.old) from) to }
    ensures there { result ≡ true → Contains (entries firsts.now rests.old) from }
    ensures stays { result ≡ false → entries firsts.now rests.new ≡ entries firsts.now rests.old }
{
    if !is_behind_first(firsts, chunk, to) {
        return false;
    }
    shift_in(&mut rests[chunk], from, to)
}

// Puts an entry in another's place, if that one is there.
#[tactic(auto, using(crate::proofs::Lists::left_ascending))]
fn shift_in(rest: &mut Vec<Entry>, from: Entry, to: Entry) -> bool
    requires { IsAscending rest.old.items }
    ensures shifted { result ≡ true
        → rest.new.items ≡ with_entry (without_entry rest.old.items from) to }
    ensures there { result ≡ true → Contains rest.old.items from }
    ensures less { length rest.new.items ≤ length rest.old.items }
    ensures stays { result ≡ false → rest.new.items ≡ rest.old.items }
{
    if !take_out_of_rest(rest, from) {
        return false;
    }
    let Ok(()) = enter_rest(rest, to) else {
        unreachable!();
    };
    true
}

// The entries next before and next after a place in its chunk, or at the ends of the chunks beside
// it.
fn beside_chunk(
    firsts: &Vec<Entry>,
    rests: &Vec<Vec<Entry>>,
    chunk: usize,
    place: Entry,
) -> (Option<Entry>, Option<Entry>)
    requires len { length firsts.now.items ≡ length rests.now.items }
    requires ascending { IsAscending (entries firsts.now rests.now) }
    requires belongs { BelongsTo firsts.now.items place chunk }
    ensures { result ≡ (
      entry_before (entries firsts.now rests.now) place,
      entry_after (entries firsts.now rests.now) place,
    ) }
{
    let first = firsts[chunk];
    let rest = &rests[chunk];
    let at = place_in(rest, place);
    let before = before_in(first, rest, at, place);
    let after = after_in(first, rest, at, place);
    (
        or_last_before(before, firsts, rests, chunk),
        or_first_from(after, firsts, chunk + 1),
    )
}

// The entry of a chunk next before a place.
fn before_in(first: Entry, rest: &[Entry], at: usize, place: Entry) -> Option<Entry>
    requires ascending { IsAscending (first ∷ rest.now) }
    requires place { IsPlace rest.now place at }
    ensures { result ≡ entry_before (first ∷ rest.now) place }
{
    if at > 0 {
        Some(rest[at - 1])
    } else if is_before(first, place) {
        Some(first)
    } else {
        None
    }
}

// The entry of a chunk next after a place.
fn after_in(first: Entry, rest: &[Entry], at: usize, place: Entry) -> Option<Entry>
    requires ascending { IsAscending (first ∷ rest.now) }
    requires place { IsPlace rest.now place at }
    ensures { result ≡ entry_after (first ∷ rest.now) place }
{
    if is_before(place, first) {
        return Some(first);
    }
    if stands_at(rest, at, place) {
        entry_at(rest, at + 1)
    } else {
        entry_at(rest, at)
    }
}

fn entry_at(list: &[Entry], at: usize) -> Option<Entry>
    ensures { result ≡ first_of (drop at list.now) }
{
    list.get(at).copied()
}

// An entry, or where there is none the last one before a chunk.
fn or_last_before(
    found: Option<Entry>,
    firsts: &Vec<Entry>,
    rests: &Vec<Vec<Entry>>,
    chunk: usize,
) -> Option<Entry>
    requires len { length firsts.now.items ≡ length rests.now.items }
    requires within { chunk < length firsts.now.items }
    ensures { result ≡ option_or found (last_of (joined (take chunk firsts.now.items)
        (take chunk (lists rests.now)))) }
{
    match found {
        Some(entry) => Some(entry),
        None if chunk == 0 => None,
        None => Some(last_in(firsts[chunk - 1], &rests[chunk - 1])),
    }
}

fn last_in(first: Entry, rest: &[Entry]) -> Entry
    ensures { result ≡ last_or first rest.now }
{
    match rest.len() {
        0 => first,
        len => rest[len - 1],
    }
}

// An entry, or where there is none the first one from a chunk on.
fn or_first_from(found: Option<Entry>, firsts: &[Entry], chunk: usize) -> Option<Entry>
    ensures { result ≡ option_or found (first_of (drop chunk firsts.now)) }
{
    match found {
        Some(entry) => Some(entry),
        None => entry_at(firsts, chunk),
    }
}
