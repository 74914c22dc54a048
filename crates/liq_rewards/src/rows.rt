//! The rows of all accounts.

ghost use Rattle.std.specs.Prelude.{◌≡◌, ℕ, ◌<◌, ◌≤◌, ◌++◌, ◌==◌, true, false, None, [], ◌∷◌, List, map, length, set};
ghost use Rattle.std.specs.Prelude.{IfSome, OnOk, OnErr};
ghost use Rattle.std.specs.List.{AllByRecursion};
ghost use Rattle.liq_types.specs.declared.events.PoolEvent.{PoolEvent};
ghost use Rattle.liq_stability.specs.declared.words.PoolWords.{PoolWords};
ghost use Rattle.liq_rewards.specs.Earner.{earner_after, no_earner, CanGoOn, IsSmall};
ghost use Rattle.liq_rewards.specs.Kept.{earner_in, has_row, HasRoomFor, words_then};
ghost use Rattle.liq_rewards.specs.Rows.{now_of, all_now, no_row, row_at, IsRowOf, IsOwnBy, changed_by};

use crate::earner::Earner;
use crate::sharing::Sharing;
use liq_stability::PoolWords;
use liq_tables::Reserved;
use liq_types::{NoMemory, PoolEvent};
use std::alloc::Global;
use std::marker::Model;

/// What is kept of an account, as of its last change.
#[derive(Clone, Copy)]
pub struct Row {
    pub earner: Earner,
    /// How many of the counted offsets are in its weight.
    pub counted: u64,
}

impl Row {
    /// The row of an account without an own operation.
    fn none(account: u32) -> Row
        ensures { result ≡ no_row account }
    {
        Row {
            earner: Earner::none(account),
            counted: 0,
        }
    }

    /// The account as it is once so many offsets are counted.
    fn as_of(&self, words: &PoolWords, offsets: u64) -> Earner
        requires { IsSmall (now_of words.now offsets self.now) }
        ensures { result ≡ now_of words.now offsets self.now }
    {
        let mut row = *self;
        row.count(words, offsets);
        row.earner
    }

    /// So many offsets are in its weight.
    fn count(&mut self, words: &PoolWords, offsets: u64)
        requires { IsSmall (now_of words.now offsets self.old) }
        ensures earner { self.new.earner ≡ now_of words.now offsets self.old }
    {
        if self.counted != offsets {
            let since = offsets.saturating_sub(self.counted);
            self.earner.weight += u128::from(since) * u128::from(self.earner.cost(words));
        }
    }

    /// It becomes its account after an event: first the counted offsets, then what is due, then
    /// the event. The words are those before it.
    fn change(
        &mut self,
        words: &PoolWords,
        sharing: Option<Sharing>,
        event: &PoolEvent,
        offsets: u64,
        counted: u64,
    )
        requires { CanGoOn words.now sharing (now_of words.now offsets self.old) }
        ensures { self.new ≡ changed_by words.now sharing event.now offsets counted self.old }
    {
        self.count(words, offsets);
        self.earner.go_on(words, sharing, event);
        self.counted = counted;
    }
}

/// The rows of all accounts that have room. Offsets that leave the pool at its place cost an
/// account the same each: they are only counted, and a row has them in its weight once it changes.
#[derive(Drop)]
pub(crate) struct Rows {
    rows: Vec<Row>,
    /// The number of each account's row, from 1; 0 is none.
    numbers: Reserved<u64>,
    /// How many offsets are counted.
    offsets: u64,
}

impl Model for Rows {
    ghost use Rattle.liq_rewards.specs.Rows.{Counted, AreRows};

    ghost Value = { Counted };

    ghost view = { λ r. record { offsets = r.offsets; rows = r.rows.items } };

    ghost invariant = { λ r. AreRows r.numbers.rows r.offsets r.rows.items };
}

impl Rows {
    /// No rows.
    pub(crate) fn new(alloc: Global) -> Rows
        ensures { (words : PoolWords) → all_now words result ≡ [] }
    {
        Rows {
            rows: Vec::new(alloc),
            numbers: Reserved::new(alloc),
            offsets: 0,
        }
    }

    /// Whether an account has a row.
    pub(crate) fn has(&self, account: u32) -> bool
        ensures { (words : PoolWords) → result ≡ has_row (all_now words self.now) account }
    {
        self.place(account).is_some()
    }

    /// A row for an account that has none. Without memory nothing changes.
    pub(crate) fn add(&mut self, account: u32) -> Result<(), NoMemory>
        requires { (words : PoolWords) → has_row (all_now words self.old) account ≡ false }
        ensures rows { OnOk result ((words : PoolWords) →
            all_now words self.new ≡ all_now words self.old ++ no_earner account ∷ []) }
        ensures err { OnErr result (self.new ≡ self.old) }
    {
        self.numbers.reserve(account)?;
        let Ok(()) = self.rows.push(Row::none(account)) else {
            return Err(NoMemory);
        };
        self.numbers.write(account, self.rows.len() as u64);
        Ok(())
    }

    /// An account as of now; without a row it has done nothing.
    pub(crate) fn earner(&self, words: &PoolWords, account: u32) -> Earner
        requires { IsSmall (earner_in (all_now words.now self.now) account) }
        ensures { result ≡ earner_in (all_now words.now self.now) account }
    {
        match self.place(account) {
            Some(place) => self.rows[place].as_of(words, self.offsets),
            None => Earner::none(account),
        }
    }

    /// What is due is dealt with, and then an event happens; the words are those before it, and
    /// those after it. All rows change where anything is shared, where an offset moves the pool's
    /// place, and where the count is full. Else an own operation changes the row of its account,
    /// and an offset none.
    pub(crate) fn event(
        &mut self,
        words: &PoolWords,
        next: &PoolWords,
        sharing: Option<Sharing>,
        event: &PoolEvent,
    )
        requires room { HasRoomFor (all_now words.now self.old) event.now }
        requires can { AllByRecursion (CanGoOn words.now sharing) (all_now words.now self.old) }
        requires next { next.now ≡ words_then words.now event.now }
        ensures { all_now next.now self.new
            ≡ map (earner_after words.now sharing event.now) (all_now words.now self.old) }
    {
        let stays = (next.epoch, next.scale) == (words.epoch, words.scale);
        if sharing.is_some() || !stays || self.offsets == u64::MAX {
            self.all_after(words, sharing, event);
            return;
        }
        match *event {
            PoolEvent::Own { account, .. } => self.own(words, account, event),
            PoolEvent::Offset { .. } => self.offsets += 1,
        }
    }

    /// All rows change.
    fn all_after(&mut self, words: &PoolWords, sharing: Option<Sharing>, event: &PoolEvent)
        requires { AllByRecursion (CanGoOn words.now sharing) (all_now words.now self.old) }
        ensures { (next : PoolWords) → all_now next self.new
            ≡ map (earner_after words.now sharing event.now) (all_now words.now self.old) }
    {
        change_all(&mut self.rows, self.offsets, words, sharing, event);
        self.offsets = 0;
    }

    /// The row of the event's account changes.
    fn own(&mut self, words: &PoolWords, account: u32, event: &PoolEvent)
        requires own { IsOwnBy event.now account }
        requires room { has_row (all_now words.now self.old) account ≡ true }
        requires can { AllByRecursion (CanGoOn words.now None) (all_now words.now self.old) }
        ensures { all_now words.now self.new
            ≡ map (earner_after words.now None event.now) (all_now words.now self.old) }
    {
        if let Some(place) = self.place(account) {
            change(&mut self.rows, place, self.offsets, words, event);
        }
    }

    /// Where an account's row stands.
    fn place(&self, account: u32) -> Option<usize>
        ensures found { IfSome result (λ place. IsRowOf self.now.rows account place) }
        ensures none { result ≡ None → (place : ℕ) → IsRowOf self.now.rows account place → ⊥ }
    {
        let number = *self.numbers.get(account)?;
        Some(number as usize - 1)
    }
}

/// Each row becomes its account after the event: first the counted offsets, then what is due, then
/// the event. The words are those before it.
fn change_all(
    rows: &mut [Row],
    offsets: u64,
    words: &PoolWords,
    sharing: Option<Sharing>,
    event: &PoolEvent,
)
    requires { AllByRecursion (CanGoOn words.now sharing)
        (map (now_of words.now offsets) rows.old) }
    ensures { rows.new ≡ map (changed_by words.now sharing event.now offsets 0) rows.old }
{
    for row in rows.iter_mut() {
        row.change(words, sharing, event, offsets, 0);
    }
}

/// One row becomes its account after the event: first the counted offsets, then the event. The
/// words are those before it.
fn change(rows: &mut [Row], place: usize, offsets: u64, words: &PoolWords, event: &PoolEvent)
    requires place { place < length rows.old }
    requires can { CanGoOn words.now None (now_of words.now offsets (row_at rows.old place)) }
    ensures { rows.new ≡ set rows.old place
        (changed_by words.now None event.now offsets offsets (row_at rows.old place)) }
{
    rows[place].change(words, None, event, offsets, offsets);
}
