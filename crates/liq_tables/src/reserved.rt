//! A table with room: rows that are not used only keep the room for one, and are not seen.

ghost use Rattle.std.specs.Prelude.{◌≡◌, [], true, IsOk, IfOk, OnOk, OnErr, OnSome, option_copied, length};
ghost use Rattle.liq_types.specs.Tables.{at, rows, without};
ghost use Rattle.liq_types.specs.WellFormed.{Ascends};
ghost use Rattle.liq_tables.specs.WithRoom.{HasRoom, KeepsRoom, written};

use crate::index::Index;
use crate::row::Row;
use liq_types::NoMemory;
use std::alloc::Global;
use std::marker::Model;

/// Rows by their account or client. Contracts see the used rows, in ascending keys, and the keys
/// that have room. Only [`Reserved::reserve`] takes memory.
pub struct Reserved<X: Row> {
    index: Index<X>,
}

// odd: drop written out
impl<X: Row> Drop for Reserved<X> {
    fn drop(self) {
        let Reserved { index: _ } = self;
    }
}

impl<X: Row> Model for Reserved<X> {
    ghost use Rattle.liq_tables.specs.WithRoom.{WithRoom, seen};

    ghost Value = { WithRoom X };

    ghost view = { λ t. seen X.used t.index };
}

impl<X: Row> Reserved<X> {
    /// A table without rows.
    pub fn new(alloc: Global) -> Reserved<X>
        ensures { result.rows ≡ [] }
    {
        Reserved {
            index: Index::new(alloc),
        }
    }

    /// A table of just these rows, of which the used ones are seen.
    pub fn from_entries(alloc: Global, entries: &[(u32, X)]) -> Result<Reserved<X>, NoMemory>
        requires { Ascends entries.now }
        ensures { IfOk result (λ table. table.rows ≡ rows X.used entries.now) }
    {
        let mut table = Reserved::new(alloc);
        for row in entries {
            table.reserve(row.0)?;
            table.write(row.0, row.1);
        }
        Ok(table)
    }

    /// The rows, in ascending keys.
    pub fn rows(&self, alloc: Global) -> Result<Vec<(u32, X)>, NoMemory>
        ensures { IfOk result (λ found. found.items ≡ self.now.rows) }
    {
        let mut found = Vec::new(alloc);
        for key in 0..self.index.end() {
            if let Some(row) = self.get(key as u32) {
                let Ok(()) = found.push((key as u32, *row)) else {
                    return Err(NoMemory);
                };
            }
        }
        Ok(found)
    }

    /// How many rows there are.
    pub fn count(&self) -> u64
        ensures { result ≡ length self.now.rows }
    {
        let mut count = 0;
        for key in 0..self.index.end() {
            count += u64::from(self.get(key as u32).is_some());
        }
        count
    }

    /// The row at a key, if there is one. Where it is, there is room.
    pub fn get(&self, key: u32) -> Option<&X>
        ensures row { option_copied result ≡ at self.now.rows key }
        ensures room { OnSome result (HasRoom self.now key) }
        ensures ascend { Ascends self.now.rows }
    {
        let row = self.index.get(key)?;
        if row.is_used() { Some(row) } else { None }
    }

    /// Makes room for a row at a key. The rows stay, and so does all room that there was. Where
    /// there is no memory nothing changes; where there was room none is wanted.
    pub fn reserve(&mut self, key: u32) -> Result<(), NoMemory>
        ensures rows { self.new.rows ≡ self.old.rows }
        ensures room { OnOk result (HasRoom self.new key) }
        ensures kept { KeepsRoom self.old self.new }
        ensures had { HasRoom self.old key → IsOk result }
        ensures err { OnErr result (self.new ≡ self.old) }
    {
        if self.index.get(key).is_some() {
            return Ok(());
        }
        let Ok(()) = self.index.insert(key, X::nothing()) else {
            return Err(NoMemory);
        };
        Ok(())
    }

    /// Writes a row at a key, and gives the row that was there. One that is used needs room, and
    /// one that is not used takes the key's row out. The room stays.
    pub fn write(&mut self, key: u32, row: X) -> Option<X>
        requires { X.used row ≡ true → HasRoom self.old key }
        ensures before { result ≡ at self.old.rows key }
        ensures rows { self.new.rows ≡ written X.used self.old.rows key row }
        ensures room { self.new.room ≡ self.old.room }
        ensures had { OnSome result (HasRoom self.old key) }
    {
        let before = self.index.replace(key, row)?;
        if before.is_used() {
            return Some(before);
        }
        None
    }

    /// Takes out the row at a key, if there is one. The room stays.
    pub fn take(&mut self, key: u32) -> Option<X>
        ensures row { result ≡ at self.old.rows key }
        ensures rows { self.new.rows ≡ without self.old.rows key }
        ensures room { self.new.room ≡ self.old.room }
        ensures had { OnSome result (HasRoom self.old key) }
    {
        self.write(key, X::nothing())
    }
}
