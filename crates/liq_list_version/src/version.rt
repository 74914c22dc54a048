//! A version: a guide of the list, the words beside it, and a number.

ghost use Rattle.std.specs.Prelude.{◌≡◌, OnOk, OnErr};
ghost use Rattle.liq_types.specs.Ranked.{neighbours};
ghost use Rattle.liq_list_version.specs.declared.asks.Ask.TheVariants.{Own, Open};
ghost use Rattle.liq_list_version.specs.Versions.{empty_version, folded, answer_of, key_asked};

use crate::asks::Ask;
use crate::words::Words;
use liq_list_index::Guide;
use liq_types::{Hint, ListChange, NoMemory};
use std::alloc::Global;
use std::marker::Model;

/// A version of the ordered list. Contracts see its view and its number.
pub struct Version {
    guide: Guide,
    words: Words,
    number: u64,
}

// odd: drop written out
impl Drop for Version {
    fn drop(self) {
        let Version {
            guide: _,
            words: _,
            number: _,
        } = self;
    }
}

impl Model for Version {
    ghost use Rattle.liq_list_version.specs.Versions.{Numbered};
    ghost use Rattle.liq_list_version.specs.Words.{seen};

    ghost Value = { Numbered };

    ghost view = { λ v. record { view = seen v.guide v.words; number = v.number } };
}

impl Version {
    /// A version of an empty list, of number 0.
    pub fn new(alloc: Global) -> Version
        ensures { result ≡ empty_version }
    {
        Version {
            guide: Guide::new(alloc),
            words: Words::NONE,
            number: 0,
        }
    }

    /// Follows changes, and takes a number. The number may be any.
    ///
    /// After `NoMemory` all is as before.
    pub fn fold(&mut self, changes: &[ListChange], number: u64) -> Result<(), NoMemory>
        ensures ok { OnOk result (self.new ≡ folded self.old changes.now number) }
        ensures err { OnErr result (self.new ≡ self.old) }
    {
        self.guide.follow(changes)?;
        self.words = self.words.after(changes);
        self.number = number;
        Ok(())
    }

    /// The number that came with the last changes.
    pub fn number(&self) -> u64
        ensures { result ≡ self.now.number }
    {
        self.number
    }

    /// Between whom the asker stands or would stand, itself aside. Takes no memory.
    pub fn answer(&self, ask: &Ask) -> Hint
        ensures { result ≡ answer_of self.now ask.now }
    {
        let (prev, next) = match *ask {
            Ask::At { key, id } => self.guide.neighbours(key, id),
            Ask::Open {
                account,
                coll,
                borrow,
            } => self.beside_opening(account, coll, borrow),
            Ask::Own { account } => self.beside_own(account),
        };
        Hint {
            prev,
            next,
            version: self.number,
        }
    }

    // Between whom a trove would open.
    fn beside_opening(&self, account: u32, coll: u64, borrow: u64) -> (Option<u32>, Option<u32>)
        ensures { result ≡ neighbours self.now.view.list (
          key_asked self.now.view
              (Open account coll borrow),
          account,
        ) }
    {
        match self.words.key(coll, borrow) {
            Some(key) => self.guide.neighbours(key, account),
            None => self.guide.neighbours_below_all(account),
        }
    }

    // Between whom an account stands.
    fn beside_own(&self, account: u32) -> (Option<u32>, Option<u32>)
        ensures { result ≡ neighbours self.now.view.list (
          key_asked self.now.view (Own account),
          account,
        ) }
    {
        let key = self.guide.key_of(account).unwrap_or(0);
        self.guide.neighbours(key, account)
    }
}
