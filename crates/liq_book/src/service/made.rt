//! A service is made, with its seats.
ghost use Rattle.std.specs.Prelude.{◌≡◌, ◌≤◌, All, None, IfOk, IfErr, [], length, vec_capacity};
ghost use Rattle.liq_lock.specs.Seats.{AreFresh, lock_id};
ghost use Rattle.liq_book.specs.Opened.{HasOpened};
ghost use Rattle.liq_book.specs.Origin.{IsAtOrigin, TellsList};
ghost use Rattle.liq_book.specs.Seats.{AreNewSeats, AreSeated, sessions_of};
ghost use Rattle.liq_views.specs.Publishers.{IsFresh};
ghost use Rattle.liq_views.specs.declared.publisher.Publisher.{Publisher};

use super::Service;
use crate::book::Book;
use crate::boxed::BoxedBook;
use crate::items::Item;
use crate::origin::Origin;
use crate::seat::BookSeat;
use liq_lock::{Lock, LockSeat};
use liq_outside::Disk;
use liq_store::Store;
use liq_types::{ListChange, NoMemory};
use liq_views::{Finder, Pane, Publisher};
use std::alloc::Global;
use std::marker::PhantomData;
use std::sync::Wait;

impl<D: Disk, O: Origin> Service<D, O> {
    /// A service over a store that is at its origin, whose changes tell its list from nothing, with
    /// a seat and a finder for each session from 1 on, in their order. The list is published as
    /// version 0, and the finders are of a publisher that did so. `Err` gives the store back where
    /// there was no memory.
    pub fn new<W: Wait>(
        rt: &W,
        alloc: Global,
        store: Store<D>,
        sessions: u8,
    ) -> Result<(Service<D, O>, Vec<BookSeat<O>>, Vec<Finder<Pane>>), Store<D>>
        requires some { 1 ≤ sessions }
        requires going { store.stopped ≡ None }
        requires origin { IsAtOrigin D.at O.state O.left O.right store }
        requires listed { TellsList store }
        ensures sessions { IfOk result (λ made. sessions_of made.0 ≡ sessions) }
        ensures count { IfOk result (λ made. length made.1.items ≡ sessions) }
        ensures seats { IfOk result (λ made. AreNewSeats made.0 made.1.items) }
        ensures finders { IfOk result (λ made. length made.2.items ≡ sessions) }
        ensures fresh { IfOk result (λ made. (p : Publisher) × HasOpened store.changes p
            × All (λ f. IsFresh p f.window × (f.last ≡ 0)) made.2.items) }
        ensures err { IfErr result (λ back. back ≡ store) }
    {
        let Ok(room) = Vec::with_capacity(alloc, sessions as usize) else {
            return Err(store);
        };
        let Ok((publisher, finders)) = open_publisher(rt, alloc, store.changes(), sessions) else {
            return Err(store);
        };
        let book = match BoxedBook::new(alloc, Book::new(alloc, store, publisher)) {
            Ok(book) => book,
            Err(book) => return Err(take_store(rt, book)),
        };
        match Lock::new(alloc, book, u32::from(sessions)) {
            Ok((lock, seats)) => {
                let seats = make_seats(&lock, seats, room);
                Ok((Service { lock, sessions }, seats, finders))
            }
            Err(book) => Err(take_store(rt, book.into_book())),
        }
    }
}

/// A publisher of the list that these changes make, as version 0, with a finder for each session,
/// which has seen nothing yet.
fn open_publisher<W: Wait>(
    rt: &W,
    alloc: Global,
    changes: &[ListChange],
    sessions: u8,
) -> Result<(Publisher, Vec<Finder<Pane>>), NoMemory>
    ensures opened { IfOk result (λ made. HasOpened changes.now made.0) }
    ensures count { IfOk result (λ made. length made.1.items ≡ sessions) }
    ensures fresh { IfOk result
        (λ made. All (λ f. IsFresh made.0 f.window × (f.last ≡ 0)) made.1.items) }
{
    let room = Vec::with_capacity(alloc, sessions as usize)?;
    let mut publisher = Publisher::alone(alloc, u32::from(sessions))?;
    match publisher.publish(rt, changes, 0) {
        Ok(_) => {
            let finders = publisher.all_finders(room, u32::from(sessions));
            Ok((publisher, finders))
        }
        Err(NoMemory) => {
            publisher.close(rt);
            Err(NoMemory)
        }
    }
}

/// The store of a book that is not used.
fn take_store<D: Disk, O: Origin, W: Wait>(rt: &W, book: Book<D, O>) -> Store<D>
    ensures { result ≡ book.book.store }
{
    let (store, publisher) = book.into_parts();
    publisher.close(rt);
    store
}

/// A seat of the book for each of the lock's, in their order.
fn make_seats<D: Disk, O: Origin>(
    lock: &Lock<BoxedBook<D, O>>,
    mut seats: Vec<LockSeat<Item>>,
    room: Vec<BookSeat<O>>,
) -> Vec<BookSeat<O>>
    requires fresh { AreFresh (lock_id lock.now) seats.items }
    requires few { length seats.items ≤ 255 }
    requires none { room.items ≡ [] }
    requires room { length seats.items ≤ vec_capacity room }
    ensures count { length result.items ≡ length seats.items }
    ensures seated { AreSeated lock.now result.items }
    ensures room { vec_capacity result ≡ vec_capacity room }
{
    let Some(seat) = seats.pop() else {
        return room;
    };
    let session = seats.len() as u8 + 1;
    let mut all = make_seats(lock, seats, room);
    all.push_reserved(BookSeat {
        seat,
        session,
        calls: 0,
        of: PhantomData,
    });
    all
}
