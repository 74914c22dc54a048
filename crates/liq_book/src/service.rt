//! A service: one book for all sessions. It is closed by all seats together: who asks while one is
//! out has everything back as it was.
ghost use Rattle.std.specs.Prelude.{◌≡◌, ◌<◌};
ghost use Rattle.liq_lock.specs.Seats.{lock_seats};

mod calls;
mod ends;
mod made;
mod publications;

use crate::book::History;
use crate::boxed::BoxedBook;
use crate::items::Halt;
use crate::origin::Origin;
use crate::seat::BookSeat;
use liq_lock::Lock;
use liq_outside::Disk;
use liq_store::Store;
use std::marker::PhantomData;

/// A book under a lock, at which each session has a seat. As a desk it answers the requests of
/// sessions at once, each as the protocol for one thread would along the one history of all their
/// calls. It is not `Drop`: end it by `close`.
pub struct Service<D: Disk, O: Origin> {
    pub(crate) lock: Lock<BoxedBook<D, O>>,
    pub(crate) sessions: u8,
    pub ghost seats: { lock_seats lock ≡ sessions },
    pub ghost some: { 0 < sessions },
}

/// What a service leaves: its store, all entries, and the halt, once there was one.
#[derive(Drop)]
pub struct Closed<D: Disk, O: Origin> {
    pub store: Store<D>,
    pub history: History,
    pub halt: Option<Halt>,
    pub of: PhantomData<O>,
}

/// A service that was to be closed while seats were missing, with the seats that were there. All
/// are as they were.
pub struct StillOut<D: Disk, O: Origin> {
    pub service: Service<D, O>,
    pub seats: Vec<BookSeat<O>>,
    /// How many seats are missing.
    pub missing: u32,
}
