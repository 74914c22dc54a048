//! Where the row of each key stands.

ghost use Rattle.std.specs.Prelude.{◌≡◌, ◌≢◌, ◌≤◌, ◌<◌, ◌*◌, ◌^◌, ℕ, [], OnOk, OnErr, length, get_or, set};
ghost use Rattle.liq_tables.specs.Pages.{place, HasPage};

use liq_types::NoMemory;
use std::alloc::Global;
use std::marker::Model;

/// The number at a key without a row.
pub(crate) const NONE: u32 = 4_294_967_295;

/// The keys of a page.
pub(crate) const KEYS: u32 = 1_024;

/// The most pages that there are: each key has one.
pub(crate) const PAGES: usize = 4_194_304;

/// A number for each key, in pages of [`KEYS`] keys. A page is made where the first of its keys
/// gets a number.
#[derive(Drop)]
pub(crate) struct Places {
    pages: Vec<Vec<u32>>,
}

impl Model for Places {
    ghost use Rattle.std.specs.Prelude.{ℕ, List, map, ◌≤◌};
    ghost use Rattle.liq_tables.specs.declared.places.TheConstants.{PAGES};

    ghost Value = { List (List ℕ) };

    ghost view = { λ p. map (λ page. page.items) p.pages.items };

    ghost invariant = { λ p. p.pages.len ≤ PAGES };
}

impl Places {
    /// No numbers.
    pub(crate) fn new(alloc: Global) -> Places
        ensures { result ≡ [] }
    {
        Places {
            pages: Vec::new(alloc),
        }
    }

    /// A number above all keys that have a page.
    pub(crate) fn end(&self) -> u64
        ensures end { result ≡ KEYS * length self.now }
        ensures few { result ≤ 2 ^ 32 }
    {
        u64::from(KEYS) * self.pages.len() as u64
    }

    /// The number at a key.
    pub(crate) fn read(&self, key: u32) -> u32
        ensures { result ≡ place self.now key }
    {
        let Some(page) = self.pages.get((key / KEYS) as usize) else {
            return NONE;
        };
        match page.get((key % KEYS) as usize) {
            Some(number) => *number,
            None => NONE,
        }
    }

    /// Makes the page of a key. All numbers stay.
    pub(crate) fn make_page(&mut self, key: u32) -> Result<(), NoMemory>
        ensures kept { (k : ℕ) → place self.new k ≡ place self.old k }
        ensures made { OnOk result (HasPage self.new key) }
    {
        let index = (key / KEYS) as usize;
        self.reach(index)?;
        fill(&mut self.pages[index])
    }

    /// Makes pages up to one with this index, which may have no places yet. All numbers stay.
    fn reach(&mut self, index: usize) -> Result<(), NoMemory>
        requires few { index < PAGES }
        ensures kept { (k : ℕ) → place self.new k ≡ place self.old k }
        ensures there { OnOk result (index < length self.new) }
    {
        while self.pages.len() <= index {
            let page = Vec::new(*self.pages.allocator());
            let Ok(()) = self.pages.push(page) else {
                return Err(NoMemory);
            };
        }
        Ok(())
    }

    /// Writes the number at a key that has a page. The others stay.
    pub(crate) fn write(&mut self, key: u32, number: u32)
        requires { HasPage self.old key }
        ensures written { place self.new key ≡ number }
        ensures others { (k : ℕ) → k ≢ key → place self.new k ≡ place self.old k }
    {
        let page = &mut self.pages[(key / KEYS) as usize];
        page[(key % KEYS) as usize] = number;
    }
}

/// Gives a page a place for each of its keys. Its numbers stay.
fn fill(page: &mut Vec<u32>) -> Result<(), NoMemory>
    ensures kept { (k : ℕ) → get_or page.new.items k NONE ≡ get_or page.old.items k NONE }
    ensures filled { OnOk result (KEYS ≤ length page.new.items) }
{
    if page.len() < KEYS as usize {
        page.resize(KEYS as usize, NONE)?;
    }
    Ok(())
}
