//! The entries of the ordered list, which follow its changes.

ghost use Rattle.std.specs.Prelude.{◌≡◌, ℤ, ◌<ℤ◌, [], IfOk, OnOk, OnErr};
ghost use Rattle.liq_types.specs.Ranked.{neighbours, key_in, IsAscending};
ghost use Rattle.liq_types.specs.Views.{View, all_followed};
ghost use Rattle.liq_list_index.specs.Followed.{last_put, hint_of_last};
ghost use Rattle.liq_list_index.specs.Rows.{StandOnce};

use crate::rows::Rows;
use crate::sides::{accounts_aside, first_account};
use liq_types::{Hint, ListChange, NoMemory};
use std::alloc::Global;
use std::marker::Model;

/// The entries of the ordered list, and the key of each account. Contracts see the list.
#[derive(Drop)]
pub struct Guide {
    rows: Rows,
}

impl Model for Guide {
    ghost use Rattle.std.specs.Prelude.{List, []};
    ghost use Rattle.liq_types.specs.Ranked.{Ranked};
    ghost use Rattle.liq_list_index.specs.Rows.{Follows, AreSettledBeside, key_at};

    ghost Value = { List Ranked };

    ghost view = { λ g. g.rows.places };

    ghost invariant = { λ g. Follows (key_at g.rows.stands) g.rows.places
        × AreSettledBeside g.rows.stands [] };
}

impl Guide {
    /// A guide of an empty list.
    pub fn new(alloc: Global) -> Guide
        ensures { result ≡ [] }
    {
        Guide {
            rows: Rows::new(alloc),
        }
    }

    /// A guide of this list at once, in which no account stands twice. `NoMemory` where there is no
    /// memory for it.
    pub fn of(alloc: Global, list: &[(i128, u32)]) -> Result<Guide, NoMemory>
        requires ascending { IsAscending list.now }
        requires once { StandOnce list.now }
        ensures { IfOk result (λ guide. guide ≡ list.now) }
    {
        Ok(Guide {
            rows: Rows::of(alloc, list)?,
        })
    }

    /// Follows the changes of a command.
    ///
    /// After `NoMemory` all is as before.
    pub fn follow(&mut self, changes: &[ListChange]) -> Result<(), NoMemory>
        ensures list { OnOk result ((v : View) → v.list ≡ self.old
            → self.new ≡ (all_followed v changes.now).list) }
        ensures err { OnErr result (self.new ≡ self.old) }
    {
        if let Some(met) = self.rows.follow_one(changes) {
            return met;
        }
        let ready = self.rows.prepare(changes);
        self.rows.settle(changes, ready.is_ok());
        ready
    }

    /// The accounts between which the one stands that changes put last, if they put any.
    pub fn hint(&self, changes: &[ListChange]) -> Option<Hint>
        ensures { result ≡ hint_of_last self.now changes.now }
    {
        let (key, account) = last_put(changes)?;
        let (prev, next) = self.neighbours(key, account);
        Some(Hint {
            prev,
            next,
            version: 0,
        })
    }

    /// The accounts between which an entry of this key and account stands or would stand, the
    /// account itself aside.
    pub fn neighbours(&self, key: i128, account: u32) -> (Option<u32>, Option<u32>)
        ensures { result ≡ neighbours self.now (key, account) }
    {
        accounts_aside(&self.rows.places, (key, account))
    }

    /// The same where the key is below all that an `i128` can be.
    pub fn neighbours_below_all(&self, account: u32) -> (Option<u32>, Option<u32>)
        ensures { (key : ℤ) → key <ℤ i128.MIN → result ≡ neighbours self.now (key, account) }
    {
        (None, first_account(&self.rows.places, account))
    }

    /// The key under which an account stands, if it does.
    pub fn key_of(&self, account: u32) -> Option<i128>
        ensures { result ≡ key_in self.now account }
    {
        self.rows.stands.account_key(account).key
    }
}

/// The entry that changes put last, if they put any.
pub fn last_put(changes: &[ListChange]) -> Option<(i128, u32)>
    ensures { result ≡ last_put changes.now }
{
    let mut put = None;
    for change in changes {
        if let ListChange::Put { key, account } = *change {
            put = Some((key, account));
        }
    }
    put
}
