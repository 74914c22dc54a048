//! How a publisher begins and ends.

ghost use Rattle.std.specs.Prelude.{◌≡◌, ◌≤◌, [], length, vec_capacity, IfOk, All};
ghost use Rattle.liq_views.specs.Publishers.{published, waiting, IsFresh};

use super::{ListWriter, Publisher};
use crate::finder::Finder;
use crate::pane::Pane;
use crate::shelf::Shelf;
use liq_types::NoMemory;
use std::alloc::Global;
use std::sync::Wait;

impl Publisher {
    /// A publisher of version 0, an empty list, and so many finders, which have seen nothing yet.
    pub fn new(alloc: Global, readers: u32) -> Result<(Publisher, Vec<Finder<Pane>>), NoMemory>
        ensures published { IfOk result (λ made. published made.0 ≡ []) }
        ensures waiting { IfOk result (λ made. waiting made.0 ≡ []) }
        ensures count { IfOk result (λ made. length made.1.items ≡ readers) }
        ensures fresh { IfOk result (λ made. All (λ f. IsFresh made.0 f.window
            × (f.last ≡ 0)) made.1.items) }
    {
        let finders = Vec::with_capacity(alloc, readers as usize)?;
        let publisher = Publisher::alone(alloc, readers)?;
        let finders = publisher.all_finders(finders, readers);
        Ok((publisher, finders))
    }

    /// A publisher of version 0, an empty list, with places for so many finders.
    pub fn alone(alloc: Global, readers: u32) -> Result<Publisher, NoMemory>
        ensures published { IfOk result (λ made. published made ≡ []) }
        ensures waiting { IfOk result (λ made. waiting made ≡ []) }
    {
        let places = if readers == 0 { 1 } else { readers };
        let writer = ListWriter::new(alloc, Shelf::new(alloc), Shelf::new(alloc), places as usize)?;
        Ok(Publisher { alloc, writer })
    }

    /// So many finders of what is published, for which there is room. They have seen nothing yet.
    pub fn all_finders(&self, mut finders: Vec<Finder<Pane>>, readers: u32) -> Vec<Finder<Pane>>
        requires empty { finders.items ≡ [] }
        requires room { readers ≤ vec_capacity finders }
        ensures count { length result.items ≡ readers }
        ensures fresh { All (λ f. IsFresh self.now f.window × (f.last ≡ 0)) result.items }
    {
        for _ in 0..readers {
            finders.push_reserved(self.finder());
        }
        finders
    }

    /// A finder of what is published, which has seen nothing yet. Where no reader is to be had, its
    /// looks are shut.
    pub fn finder(&self) -> Finder<Pane>
        ensures { IsFresh self.now result.window × (result.last ≡ 0) }
    {
        Finder::new(Pane::over(self.writer.factory().reader().ok()))
    }

    /// Ends it. What waits is not published. A finder's look may be shut afterwards. Takes no
    /// memory.
    pub fn close<R: Wait>(self, rt: &R) {
        let Publisher { alloc: _, writer } = self;
        writer.take(rt);
    }
}
