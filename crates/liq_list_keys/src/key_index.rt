//! Where each account stands.

ghost use Rattle.std.specs.Prelude.{◌≡◌, ℕ, true, None, Some, length, IsSome, IfSome, OnOk, OnErr};
ghost use Rattle.liq_types.specs.Tables.{at};
ghost use Rattle.liq_list_keys.specs.ShortKey.{is_short};
ghost use Rattle.liq_list_keys.specs.Parts.{account_key};
ghost use Rattle.liq_list_keys.specs.AccountKey.{nowhere, settled_at, side_of, moved};

use crate::short_key::ShortKey;
use liq_tables::Reserved;
use liq_types::NoMemory;
use std::alloc::Global;
use std::collections::BTreeMap;
use std::marker::Model;

/// Where an account stands.
#[derive(Clone, Copy)]
pub struct AccountKey {
    /// Its key, if it stands in the list.
    pub key: Option<i128>,
    /// Its key after the changes that are being followed. While none are it is the key.
    pub next: Option<i128>,
}

/// Where each account stands. Contracts see it account by account.
///
/// An account takes 12 bytes where its key fits an i64 and is not the least of all, and nothing is
/// noted of it. The others are kept apart, and so are those of which something is noted.
#[derive(Drop)]
pub struct KeyIndex {
    // Each account that is kept apart has room here.
    kept: Reserved<ShortKey>,
    // None of these is kept too.
    apart: BTreeMap<u32, AccountKey>,
}

impl Model for KeyIndex {
    ghost use Rattle.liq_list_keys.specs.Parts.{Parts, AreParted};

    ghost Value = { Parts };

    ghost view = { λ s. record { kept = s.kept.rows; apart = s.apart.entries } };

    ghost invariant = { λ s. AreParted s.kept s.apart.entries };
}

impl KeyIndex {
    /// Nobody stands.
    pub fn new(alloc: Global) -> KeyIndex
        ensures { (a : ℕ) → account_key result a ≡ nowhere }
    {
        KeyIndex {
            kept: Reserved::new(alloc),
            apart: BTreeMap::new(alloc),
        }
    }

    /// Where an account stands.
    pub fn account_key(&self, account: u32) -> AccountKey
        ensures { result ≡ account_key self.now account }
    {
        if let Some(kept) = self.kept.get(account) {
            return AccountKey::at_rest(Some(i128::from(kept.key)));
        }
        match self.apart.get(&account) {
            Some(stand) => *stand,
            None => AccountKey::at_rest(None),
        }
    }

    /// Notes where an account will stand. After `NoMemory` all is as before.
    pub fn aim(&mut self, account: u32, next: Option<i128>) -> Result<(), NoMemory>
        ensures ok { OnOk result ((a : ℕ) → account_key self.new a
            ≡ moved (account_key self.old) account (record {
              key = (account_key self.old account).key;
              next = next;
            }) a) }
        ensures err { OnErr result ((a : ℕ) → account_key self.new a ≡ account_key self.old a) }
    {
        self.kept.reserve(account)?;
        let key = self.account_key(account).key;
        let Ok(_) = self.apart.insert(account, AccountKey { key, next }) else {
            return Err(NoMemory);
        };
        let _ = self.kept.take(account);
        Ok(())
    }

    /// Ends what was noted of an account: it stands where it will, or, where the changes are not
    /// made, where it stood. Takes no memory.
    pub fn settle(&mut self, account: u32, made: bool)
        ensures { (a : ℕ) → account_key self.new a
            ≡ moved (account_key self.old) account
            (settled_at (side_of made (account_key self.old account))) a }
    {
        let Some(stand) = self.apart.get(&account) else {
            return;
        };
        match stand.side(made) {
            None => {
                let _ = self.apart.remove(&account);
            }
            Some(key) => match ShortKey::of(key) {
                Some(kept) => {
                    let _ = self.apart.remove(&account);
                    let _ = self.kept.write(account, kept);
                }
                None => {
                    // It stands there, so this takes no memory.
                    let _ = self.apart.insert(account, AccountKey::at_rest(Some(key)));
                }
            },
        }
    }

    /// The key of an account that is kept: that no change moves, under a key that fits.
    pub fn short_key(&self, account: u32) -> Option<ShortKey>
        ensures kept { result ≡ at self.now.kept account }
        ensures key { IfSome result (λ kept. account_key self.now account
            ≡ settled_at (Some kept.key)) }
    {
        self.kept.get(account).copied()
    }

    /// Gives an account that is kept another key. Takes no memory.
    pub fn keep(&mut self, account: u32, key: ShortKey)
        requires kept { IsSome (at self.old.kept account) }
        requires key { is_short key ≡ true }
        ensures moved { (a : ℕ) → account_key self.new a ≡ moved (account_key self.old) account
            (settled_at (Some key.key)) a }
        ensures kept { at self.new.kept account ≡ Some key }
    {
        let _ = self.kept.write(account, key);
    }

    /// Takes out an account that is kept: it stands nowhere then. Takes no memory.
    pub fn leave(&mut self, account: u32)
        requires { IsSome (at self.old.kept account) }
        ensures { (a : ℕ) → account_key self.new a ≡ moved (account_key self.old) account
            (settled_at None) a }
    {
        self.kept.take(account);
    }

    /// Keeps an account under a key, wherever it stood. After `NoMemory` all is as before.
    pub fn open(&mut self, account: u32, kept: ShortKey) -> Result<(), NoMemory>
        requires { is_short kept ≡ true }
        ensures ok { OnOk result ((a : ℕ) → account_key self.new a ≡ moved
            (account_key self.old) account
            (settled_at (Some kept.key)) a) }
        ensures kept { OnOk result (at self.new.kept account ≡ Some kept) }
        ensures err { OnErr result (self.new ≡ self.old) }
    {
        self.kept.reserve(account)?;
        let _ = self.apart.remove(&account);
        let _ = self.kept.write(account, kept);
        Ok(())
    }

    /// How many accounts are kept. It looks at each.
    pub fn count_kept(&self) -> u64
        ensures { result ≡ length self.now.kept }
    {
        self.kept.count()
    }

    /// How many accounts stand apart. Each takes more memory than one that is kept.
    pub fn count_apart(&self) -> usize
        ensures { result ≡ length self.now.apart }
    {
        self.apart.len()
    }
}

impl AccountKey {
    /// Where an account stands that no change moves.
    pub fn at_rest(key: Option<i128>) -> AccountKey
        ensures { result ≡ settled_at key }
    {
        AccountKey { key, next: key }
    }

    // The key that it has once the changes are made, or the one that it has where they are not.
    fn side(self, made: bool) -> Option<i128>
        ensures { result ≡ side_of made self }
    {
        if made { self.next } else { self.key }
    }
}
