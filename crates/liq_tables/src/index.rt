//! Rows by key: a list of rows, and for each key the number of its row in the list.

ghost use Rattle.std.specs.Prelude.{◌≡◌, ◌≤◌, ◌^◌, ℕ, [], None, IsSome, OnOk, OnErr, option_copied, is_some, if◌then◌else◌};
ghost use Rattle.liq_types.specs.Tables.{at, put};
ghost use Rattle.liq_types.specs.WellFormed.{Ascends};

use crate::places::{NONE, Places};
use liq_types::NoMemory;
use std::alloc::Global;
use std::marker::Model;

/// A row for each of some keys. Contracts see the rows in ascending keys.
#[derive(Drop)]
pub(crate) struct Index<X: Copy> {
    places: Places,
    rows: Vec<X>,
}

impl<X: Copy> Model for Index<X> {
    ghost use Rattle.liq_types.specs.Tables.{Table};
    ghost use Rattle.liq_tables.specs.Pages.{entries, IsIndex};

    ghost Value = { Table X };

    ghost view = { λ i. entries i.places i.rows.items };

    ghost invariant = { λ i. IsIndex i.places i.rows.items };
}

impl<X: Copy> Index<X> {
    /// No rows.
    pub(crate) fn new(alloc: Global) -> Index<X>
        ensures { result ≡ [] }
    {
        Index {
            places: Places::new(alloc),
            rows: Vec::new(alloc),
        }
    }

    /// A number above all keys that have a row.
    pub(crate) fn end(&self) -> u64
        ensures above { (key : ℕ) → result ≤ key → at self.now key ≡ None }
        ensures few { result ≤ 2 ^ 32 }
        ensures ascend { Ascends self.now }
    {
        self.places.end()
    }

    /// The row at a key, if there is one.
    pub(crate) fn get(&self, key: u32) -> Option<&X>
        ensures row { option_copied result ≡ at self.now key }
        ensures ascend { Ascends self.now }
    {
        self.rows.get(self.places.read(key) as usize)
    }

    /// Another row at a key that has one, which is given. Where there is none, nothing changes.
    pub(crate) fn replace(&mut self, key: u32, row: X) -> Option<X>
        ensures before { result ≡ at self.old key }
        ensures rows { self.new ≡ (if is_some (at self.old key) then put self.old key row
            else self.old) }
        ensures ascend { Ascends self.old }
    {
        let place = self.rows.get_mut(self.places.read(key) as usize)?;
        let before = *place;
        *place = row;
        Some(before)
    }

    /// A row at a key that has none. Where there is no memory nothing changes.
    pub(crate) fn insert(&mut self, key: u32, row: X) -> Result<(), NoMemory>
        requires { at self.old key ≡ None }
        ensures rows { OnOk result (self.new ≡ put self.old key row) }
        ensures err { OnErr result (self.new ≡ self.old) }
    {
        let number = self.rows.len();
        if number >= NONE as usize {
            return Err(NoMemory);
        }
        self.places.make_page(key)?;
        let Ok(()) = self.rows.push(row) else {
            return Err(NoMemory);
        };
        self.places.write(key, number as u32);
        Ok(())
    }
}
