//! The value behind the lock of a service: a store, all that was entered, and the publisher of the
//! list.

ghost use Rattle.std.specs.Prelude.{◌≡◌, ◌≤◌, ◌⊎◌, IfOk, length, [], ◌∷◌, None};
ghost use Rattle.std.specs.Option.{option_map};
ghost use Rattle.liq_rule_step.specs.History.{IsLegal, own_entries};
ghost use Rattle.liq_store.specs.Keeping.{IsInOrder};
ghost use Rattle.liq_views.specs.Publishers.{published, waiting};
ghost use Rattle.liq_book.specs.Items.{chronicle};

use crate::entering::enter;
use crate::items::{ENTRIES_MOST, Halt};
use crate::origin::Origin;
use crate::publishing::publish;
use crate::service::Closed;
use liq_core::laws::protocols_are_sound;
use liq_outside::Disk;
use liq_store::Store;
use liq_types::{Answer, Entry, Hint, NoMemory, Request, Seq};
use liq_views::{Publication, Publisher};
use std::alloc::Global;
use std::marker::{Model, PhantomData};
use std::sync::Wait;

/// Entries in their order.
pub type History = Seq<Entry>;

/// A store with the history of its calls, and the publisher of its list. Contracts see the store,
/// the entries, the halt, once a call met a disk's fault, and the batches that were published or
/// wait. It is not `Drop`: end it by `close`.
pub struct Book<D: Disk, O: Origin> {
    pub(crate) store: Store<D>,
    pub(crate) publisher: Publisher,
    pub(crate) entries: Vec<Entry>,
    pub(crate) halt: Option<Halt>,
    pub(crate) of: PhantomData<O>,
}

impl<D: Disk, O: Origin> Model for Book<D, O> {
    ghost use Rattle.liq_views.specs.Publishers.{published, waiting};
    ghost use Rattle.liq_book.specs.Booked.{IsBook};
    ghost use Rattle.liq_book.specs.Publishing.{IsPublishing, OpenBook, open_book};

    ghost Value = { OpenBook D };

    ghost view = { λ b. open_book b.store b.entries.items b.halt
        (published b.publisher) (waiting b.publisher) };

    ghost invariant = { λ b. IsBook D.at O.state O.left O.right
        (record { store = b.store; entries = b.entries.items; halt = b.halt })
        × IsPublishing O.state (open_book b.store b.entries.items b.halt
        (published b.publisher) (waiting b.publisher)) };
}

impl<D: Disk, O: Origin> Book<D, O> {
    ghost use Rattle.liq_book.specs.Booked.{IsBook};
    ghost use Rattle.liq_book.specs.Closing.{booked_by};
    ghost use Rattle.liq_book.specs.Entered.{Enters, IsTestedFirst};
    ghost use Rattle.liq_book.specs.Opened.{HasOpened};
    ghost use Rattle.liq_book.specs.Origin.{IsAtOrigin, TellsList};
    ghost use Rattle.liq_book.specs.Publishing.{Publishes, PublishesNothing, open_book};

    /// A book without entries, over a store that was never stopped, whose opened list was
    /// published.
    pub(crate) fn new(alloc: Global, store: Store<D>, publisher: Publisher) -> Book<D, O>
        requires going { store.stopped ≡ None }
        requires origin { IsAtOrigin D.at O.state O.left O.right store }
        requires listed { TellsList store }
        requires opened { HasOpened store.changes publisher }
        ensures { result ≡ open_book store [] None (published publisher) (waiting publisher) }
    {
        // odd: law called. What holds of a store is told by its calls alone.
        let _ = store.stopped();
        Book {
            store,
            publisher,
            entries: Vec::new(alloc),
            halt: None,
            of: PhantomData,
        }
    }

    /// How many items the chronicle has.
    pub(crate) fn entries(&self) -> u64
        ensures { result ≡ length (chronicle self.now.book.entries self.now.book.halt) }
    {
        let entries = self.entries.len() as u64;
        match self.halt {
            None => entries,
            Some(_) => entries + 1,
        }
    }

    /// The store and the publisher, of a book that is not used.
    pub(crate) fn into_parts(self) -> (Store<D>, Publisher)
        ensures { result.0 ≡ self.book.store }
    {
        let Book {
            store,
            publisher,
            entries: _,
            halt: _,
            of: _,
        } = self;
        (store, publisher)
    }

    /// What the book has. Its publisher is ended.
    pub(crate) fn close<W: Wait>(self, rt: &W) -> Closed<D, O>
        ensures same { booked_by result ≡ self.book }
        ensures book { IsBook D.at O.state O.left O.right self.book }
    {
        let Book {
            store,
            publisher,
            entries,
            halt,
            of,
        } = self;
        publisher.close(rt);
        Closed {
            store,
            history: History::of(entries),
            halt,
            of,
        }
    }

    /// Answers a session's request, of which so many calls got a reply before, and enters it with
    /// its reply. With any other answer the entries stay. At the limit nothing is asked of the
    /// store. After a disk's fault there is a halt. It publishes nothing: what it changed in the
    /// list goes out with the next publication.
    pub(crate) fn call(&mut self, session: u8, calls: u32, request: &Request, hint: &Hint) -> Answer
        requires calls { length (own_entries session self.old.book.entries) ≡ calls }
        ensures enters { Enters O.state session calls request.now result self.old.book
            self.new.book }
        ensures first { IsTestedFirst self.old.book.entries result }
        ensures legal { IsLegal O.state self.new.book.entries }
        ensures few { length self.new.book.entries ≤ ENTRIES_MOST }
        ensures silent { PublishesNothing self.old self.new }
    {
        if self.entries.len() == ENTRIES_MOST {
            let entries = ENTRIES_MOST as u64;
            return Answer::HistoryFull { entries };
        }
        if self.entries.try_reserve(1).is_err() {
            return Answer::NoMemory;
        }
        forget_opening(&mut self.store, self.entries.as_slice());
        // odd: law called
        protocols_are_sound(self.store.protocol());
        match enter(
            &mut self.store,
            &mut self.entries,
            session,
            calls,
            request,
            hint,
        ) {
            Answer::Reply(reply) => Answer::Reply(reply),
            Answer::DiskFault => {
                self.halt = halt_by(session, request, self.store.stopped());
                Answer::DiskFault
            }
            other => other,
        }
    }

    /// Publishes what the calls since the last publication changed in the list, as the version
    /// after all entries. Without memory what is told is kept, and goes out with the next
    /// publication.
    pub(crate) fn publish<W: Wait>(&mut self, rt: &W) -> Result<Publication, NoMemory>
        ensures number { IfOk result (λ sent. sent.number ≡ length self.old.book.entries) }
        ensures sent { Publishes self.old result self.new }
    {
        let number = self.entries.len() as u64;
        publish(&mut self.store, &mut self.publisher, rt, number)
    }
}

/// Before the first entry there is nothing to tell: the list as it was opened was published when
/// the book was made.
fn forget_opening<D: Disk>(store: &mut Store<D>, entries: &[Entry])
    ensures store { store.new ≡ record store.old { changes = store.new.changes } }
    ensures changes { (store.new.changes ≡ store.old.changes)
        ⊎ ((entries.now ≡ []) × (store.new.changes ≡ [])) }
    ensures order { IsInOrder D.at store.new }
{
    if entries.is_empty() {
        store.clear_changes();
    } else {
        // odd: law called. What holds of a store is told by its calls alone.
        let _ = store.stopped();
    }
}

/// The halt of a request, with the faults that are told from then on.
fn halt_by(session: u8, request: &Request, faults: Option<u64>) -> Option<Halt>
    ensures { result ≡ option_map
        (λ sum. record { session = session; request = request.now; faults = sum }) faults }
{
    let faults = faults?;
    Some(Halt {
        session,
        request: *request,
        faults,
    })
}
