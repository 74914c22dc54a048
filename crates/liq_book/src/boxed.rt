//! A book behind one pointer, so that a turn at the lock moves 8 bytes and not the book.

ghost use Rattle.std.specs.Prelude.{◌≡◌, ◌≤◌, IfErr, IfOk, length};
ghost use Rattle.liq_rule_step.specs.History.{IsLegal, own_entries};
ghost use Rattle.liq_book.specs.Booked.{IsBook};
ghost use Rattle.liq_book.specs.Closing.{booked_by};
ghost use Rattle.liq_book.specs.Entered.{Enters, IsTestedFirst};
ghost use Rattle.liq_book.specs.Items.{chronicle, session_of};
ghost use Rattle.liq_book.specs.Publishing.{Publishes};

use crate::book::Book;
use crate::items::{ENTRIES_MOST, Item};
use crate::origin::Origin;
use crate::service::Closed;
use liq_lock::Chronicle;
use liq_outside::Disk;
use liq_types::{Answer, Hint, NoMemory, Request};
use liq_views::Publication;
use std::alloc::Global;
use std::sync::Wait;

/// A book behind one pointer, which is all that a turn at the lock moves.
pub struct BoxedBook<D: Disk, O: Origin> {
    pub(crate) boxed: Box<Book<D, O>>,
}

impl<D: Disk, O: Origin> Chronicle for BoxedBook<D, O> {
    type Item = Item;

    ghost history = { λ b. chronicle b.boxed.value.book.entries b.boxed.value.book.halt };

    ghost maker = { session_of };

    fn entries(&self) -> u64 {
        self.boxed.entries()
    }
}

impl<D: Disk, O: Origin> BoxedBook<D, O> {
    /// The book behind a pointer, or the book as it was where there was no memory for that.
    pub(crate) fn new(alloc: Global, book: Book<D, O>) -> Result<BoxedBook<D, O>, Book<D, O>>
        ensures ok { IfOk result (λ b. b.boxed.value ≡ book) }
        ensures err { IfErr result (λ back. back ≡ book) }
    {
        match Box::new(alloc, book) {
            Ok(boxed) => Ok(BoxedBook { boxed }),
            Err(refused) => Err(refused.value),
        }
    }

    /// Takes the book out of its box.
    pub(crate) fn into_book(self) -> Book<D, O>
        ensures { result ≡ self.boxed.value }
    {
        let BoxedBook { boxed } = self;
        Box::into_inner(boxed)
    }

    /// What the book has. Its publisher is ended.
    pub(crate) fn close<W: Wait>(self, rt: &W) -> Closed<D, O>
        ensures same { booked_by result ≡ self.boxed.value.book }
        ensures book { IsBook D.at O.state O.left O.right self.boxed.value.book }
    {
        self.into_book().close(rt)
    }

    /// As [`Book::call`].
    pub(crate) fn call(&mut self, session: u8, calls: u32, request: &Request, hint: &Hint) -> Answer
        requires calls { length (own_entries session self.old.boxed.value.book.entries) ≡ calls }
        ensures enters { Enters O.state session calls request.now result self.old.boxed.value.book
            self.new.boxed.value.book }
        ensures first { IsTestedFirst self.old.boxed.value.book.entries result }
        ensures legal { IsLegal O.state self.new.boxed.value.book.entries }
        ensures few { length self.new.boxed.value.book.entries ≤ ENTRIES_MOST }
    {
        self.boxed.call(session, calls, request, hint)
    }

    /// As [`Book::publish`].
    pub(crate) fn publish<W: Wait>(&mut self, rt: &W) -> Result<Publication, NoMemory>
        ensures number { IfOk result
            (λ sent. sent.number ≡ length self.old.boxed.value.book.entries) }
        ensures sent { Publishes self.old.boxed.value result self.new.boxed.value }
    {
        self.boxed.publish(rt)
    }
}
