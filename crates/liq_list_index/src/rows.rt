//! The entries of the ordered list beside each account's key, and how a command's changes are
//! followed in both.
//!
//! ```text
//!           prepare: note, put in             settle: take out
//! at rest ------------------------> ready --------------------> at rest, after the changes
//!    |                no memory `-> partly ready -------------> at rest, as before
//!    `-- follow_one: one change of a common kind, without notes --> at rest
//! ```
//!
//! At rest each account that has a key stands in the list under that key, and no other does. In
//! between an account may stand there under its key and its next one at once: `prepare` takes no
//! entry out, so `settle` can go either way, and takes no memory.

ghost use Rattle.std.specs.Prelude.{◌≡◌, ◌==◌, ℕ, ℤ, true, false, [], Some, None, List, is_ok, not, if◌then◌else◌, OnOk, IsOk, IfOk, IfSome, MatchOption};
ghost use Rattle.std.specs.Ordering.{is_eq};
ghost use Rattle.liq_types.specs.Ranked.{Ranked, rank_order, IsAscending};
ghost use Rattle.liq_list_keys.specs.Parts.{account_key};
ghost use Rattle.liq_list_keys.specs.AccountKey.{nowhere, moved, settled_at, side_of};
ghost use Rattle.liq_types.specs.declared.events.ListChange.TheVariants.{Put, Gone};
ghost use Rattle.liq_list_index.specs.Followed.{listed, all_listed};
ghost use Rattle.liq_list_index.specs.Rows.{Follows, HasTried, Holds, AreSettledBeside, StandOnce, names, named_by, key_at, next_at, side_at, is_in, is_key};

use crate::entry_sets::{EntrySets, WideEntry};
use liq_list_keys::{AccountKey, KeyIndex, ShortKey};
use liq_types::{ListChange, NoMemory};
use std::alloc::Global;

// The entries of the ordered list, by key and account, and where each account stands.
#[derive(Drop)]
pub(crate) struct Rows {
    pub(crate) places: EntrySets,
    pub(crate) stands: KeyIndex,
}

impl Rows {
    pub(crate) fn new(alloc: Global) -> Rows
        ensures places { result.places ≡ [] }
        ensures stands { (a : ℕ) → account_key result.stands a ≡ nowhere }
    {
        Rows {
            places: EntrySets::new(alloc),
            stands: KeyIndex::new(alloc),
        }
    }

    // The entries of a list at once, in which no account stands twice.
    pub(crate) fn of(alloc: Global, list: &[WideEntry]) -> Result<Rows, NoMemory>
        requires ascending { IsAscending list.now }
        requires once { StandOnce list.now }
        ensures places { IfOk result (λ rows. rows.places ≡ list.now) }
        ensures follows { IfOk result (λ rows. Follows (key_at rows.stands) list.now) }
        ensures settled { IfOk result (λ rows. AreSettledBeside rows.stands []) }
    {
        Ok(Rows {
            places: EntrySets::of(alloc, list)?,
            stands: key_index_of(alloc, list)?,
        })
    }

    // Follows one change alone without notes: one that puts an account under a key that can be
    // kept, where it is kept or stands nowhere, and one that takes out an account that is kept,
    // also with new words behind it, as where a trove is liquidated. Others are not followed. Then,
    // and where there is no memory, all is as before.
    pub(crate) fn follow_one(&mut self, changes: &[ListChange]) -> Option<Result<(), NoMemory>>
        ensures tried { Follows (key_at self.old.stands) self.old.places
            → HasTried self.old self.new (all_listed self.old.places changes.now) result }
        ensures settled { AreSettledBeside self.old.stands []
            → AreSettledBeside self.new.stands [] }
    {
        match *changes {
            [ListChange::Put { key, account }] => self.put_one(key, account),
            [ListChange::Gone { account }]
            | [ListChange::Gone { account }, ListChange::Words { .. }] => self.take_kept(account),
            _ => None,
        }
    }

    // Puts an account under a key that can be kept, where it is kept or stands nowhere.
    fn put_one(&mut self, key: i128, account: u32) -> Option<Result<(), NoMemory>>
        ensures tried { Follows (key_at self.old.stands) self.old.places
            → HasTried self.old self.new (listed self.old.places (Put key account)) result }
        ensures settled { AreSettledBeside self.old.stands []
            → AreSettledBeside self.new.stands [] }
    {
        let kept = ShortKey::of(key)?;
        if let Some(stood) = self.stands.short_key(account) {
            if let Err(NoMemory) = self
                .places
                .replace((stood.key, account), (kept.key, account))
            {
                return Some(Err(NoMemory));
            }
            self.stands.keep(account, kept);
            return Some(Ok(()));
        }
        if self.stands.account_key(account).key.is_some() {
            return None;
        }
        if let Err(NoMemory) = self.places.insert((key, account)) {
            return Some(Err(NoMemory));
        }
        if let Err(NoMemory) = self.stands.open(account, kept) {
            self.places.remove((key, account));
            return Some(Err(NoMemory));
        }
        Some(Ok(()))
    }

    // Takes out an account that is kept. That needs no memory.
    fn take_kept(&mut self, account: u32) -> Option<Result<(), NoMemory>>
        ensures tried { Follows (key_at self.old.stands) self.old.places
            → HasTried self.old self.new (listed self.old.places (Gone account)) result }
        ensures settled { AreSettledBeside self.old.stands []
            → AreSettledBeside self.new.stands [] }
        ensures ok { IfSome result (λ r. IsOk r) }
    {
        let stood = self.stands.short_key(account)?;
        self.places.remove((i128::from(stood.key), account));
        self.stands.leave(account);
        Some(Ok(()))
    }

    // Makes ready for changes: notes where each account will stand, and puts in the entries that
    // will. None is taken out.
    pub(crate) fn prepare(&mut self, changes: &[ListChange]) -> Result<(), NoMemory>
        ensures key { (a : ℕ) → key_at self.new.stands a ≡ key_at self.old.stands a }
        ensures next { OnOk result ((list : List Ranked) → Follows (next_at self.old.stands) list
            → Follows (next_at self.new.stands) (all_listed list changes.now)) }
        ensures settled { AreSettledBeside self.old.stands []
            → AreSettledBeside self.new.stands changes.now }
        ensures holds { AreSettledBeside self.old.stands []
            → Holds (key_at self.old.stands) (next_at self.old.stands) self.old.places
            → Holds (side_at (is_ok result) self.new.stands)
            (side_at (not (is_ok result)) self.new.stands) self.new.places }
    {
        self.aim(changes)?;
        self.enter(changes)
    }

    // Notes where each account will stand.
    fn aim(&mut self, changes: &[ListChange]) -> Result<(), NoMemory>
        ensures places { self.new.places ≡ self.old.places }
        ensures key { (a : ℕ) → key_at self.new.stands a ≡ key_at self.old.stands a }
        ensures next { OnOk result ((list : List Ranked) → Follows (next_at self.old.stands) list
            → Follows (next_at self.new.stands) (all_listed list changes.now)) }
        ensures others { (a : ℕ) → names changes.now a ≡ false → account_key self.new.stands a
            ≡ account_key self.old.stands a }
    {
        for change in changes {
            self.aim_one(change)?;
        }
        Ok(())
    }

    fn aim_one(&mut self, change: &ListChange) -> Result<(), NoMemory>
        ensures places { self.new.places ≡ self.old.places }
        ensures key { (a : ℕ) → key_at self.new.stands a ≡ key_at self.old.stands a }
        ensures next { OnOk result ((list : List Ranked) → Follows (next_at self.old.stands) list
            → Follows (next_at self.new.stands) (listed list change.now)) }
        ensures others { (a : ℕ) → named_by a change.now ≡ false → account_key self.new.stands a
            ≡ account_key self.old.stands a }
    {
        match *change {
            ListChange::Put { key, account } => self.stands.aim(account, Some(key)),
            ListChange::Gone { account } => self.stands.aim(account, None),
            ListChange::Words { .. } => Ok(()),
        }
    }

    // Puts in the entries that will stand. None is taken out.
    fn enter(&mut self, changes: &[ListChange]) -> Result<(), NoMemory>
        ensures stands { self.new.stands ≡ self.old.stands }
        ensures holds { Holds (key_at self.old.stands) (next_at self.old.stands) self.old.places
            → Holds (key_at self.old.stands) (next_at self.old.stands) self.new.places }
        ensures entered { Holds (key_at self.old.stands) (next_at self.old.stands) self.old.places
            → OnOk result ((e : Ranked) → names changes.now e.1 ≡ true
            → is_key (next_at self.old.stands e.1) e.0 ≡ true → is_in self.new.places e ≡ true) }
    {
        for change in changes {
            if let Some(account) = account_of(change) {
                self.enter_one(account)?;
            }
        }
        Ok(())
    }

    fn enter_one(&mut self, account: u32) -> Result<(), NoMemory>
        ensures stands { self.new.stands ≡ self.old.stands }
        ensures holds { Holds (key_at self.old.stands) (next_at self.old.stands) self.old.places
            → Holds (key_at self.old.stands) (next_at self.old.stands) self.new.places }
        ensures kept { (e : Ranked) → is_in self.old.places e ≡ true → is_in self.new.places e
            ≡ true }
        ensures entered { Holds (key_at self.old.stands) (next_at self.old.stands) self.old.places
            → OnOk result ((e : Ranked) → (account == e.1) ≡ true
            → is_key (next_at self.old.stands e.1) e.0 ≡ true → is_in self.new.places e ≡ true) }
    {
        let AccountKey { key, next } = self.stands.account_key(account);
        match next {
            Some(place) if key != next => self.places.insert((place, account)),
            _ => Ok(()),
        }
    }

    // Ends what was made ready: each account stands where it will, or, where the changes are not
    // made, where it stood.
    pub(crate) fn settle(&mut self, changes: &[ListChange], made: bool)
        ensures same { (a : ℕ) → side_at made self.new.stands a ≡ side_at made self.old.stands a }
        ensures settled { AreSettledBeside self.old.stands changes.now
            → AreSettledBeside self.new.stands [] }
        ensures holds { Holds (side_at made self.old.stands) (side_at (not made) self.old.stands)
            self.old.places
            → Holds (side_at made self.new.stands) (side_at (not made) self.new.stands)
            self.new.places }
    {
        for change in changes {
            if let Some(account) = account_of(change) {
                self.settle_one(account, made);
            }
        }
    }

    fn settle_one(&mut self, account: u32, made: bool)
        ensures same { (a : ℕ) → side_at made self.new.stands a ≡ side_at made self.old.stands a }
        ensures settled { next_at self.new.stands account ≡ key_at self.new.stands account }
        ensures others { (a : ℕ) → (account == a) ≡ false → account_key self.new.stands a
            ≡ account_key self.old.stands a }
        ensures holds { Holds (side_at made self.old.stands) (side_at (not made) self.old.stands)
            self.old.places
            → Holds (side_at made self.new.stands) (side_at (not made) self.new.stands)
            self.new.places }
    {
        let (stays, goes) = sides(self.stands.account_key(account), made);
        if stays != goes {
            self.clear(account, goes);
        }
        self.stands.settle(account, made);
    }

    // Takes out the entry of an account under a key, if there is a key.
    fn clear(&mut self, account: u32, key: Option<i128>)
        ensures stands { self.new.stands ≡ self.old.stands }
        ensures none { key ≡ None → self.new.places ≡ self.old.places }
        ensures some { (k : ℤ) → key ≡ Some k → IsAscending self.new.places × ((e : Ranked)
            → is_in self.new.places e ≡ (if is_eq (rank_order (k, account) e) then false
            else is_in self.old.places e)) }
    {
        if let Some(key) = key {
            self.places.remove((key, account));
        }
    }
}

// Where the accounts of a list stand, each under its key.
fn key_index_of(alloc: Global, list: &[WideEntry]) -> Result<KeyIndex, NoMemory>
    requires ascending { IsAscending list.now }
    requires once { StandOnce list.now }
    ensures follows { IfOk result (λ stands. Follows (key_at stands) list.now) }
    ensures settled { IfOk result (λ stands. AreSettledBeside stands []) }
{
    let mut stands = KeyIndex::new(alloc);
    for place in list {
        put_under(&mut stands, place.0, place.1)?;
    }
    Ok(stands)
}

// Puts an account under a key, whether it can be kept or not.
fn put_under(stands: &mut KeyIndex, key: i128, account: u32) -> Result<(), NoMemory>
    ensures { OnOk result ((a : ℕ) → account_key stands.new a
        ≡ moved (account_key stands.old) account (settled_at (Some key)) a) }
{
    if let Some(kept) = ShortKey::of(key) {
        return stands.open(account, kept);
    }
    stands.aim(account, Some(key))?;
    stands.settle(account, true);
    Ok(())
}

// The key that is kept and the one that is given up, where the changes are made and where they are
// not.
fn sides(stand: AccountKey, made: bool) -> (Option<i128>, Option<i128>)
    ensures { result ≡ (side_of made stand, side_of (not made) stand) }
{
    if made {
        (stand.next, stand.key)
    } else {
        (stand.key, stand.next)
    }
}

// The account that a change moves, if it moves any.
fn account_of(change: &ListChange) -> Option<u32>
    ensures { MatchOption result ((a : ℕ) → named_by a change.now ≡ false) (λ account. (a : ℕ)
        → named_by a change.now ≡ (account == a)) }
{
    match *change {
        ListChange::Put { account, .. } | ListChange::Gone { account } => Some(account),
        ListChange::Words { .. } => None,
    }
}
