//! What is left when all sessions have ended.

ghost use Rattle.std.specs.Prelude.{◌≡◌};
ghost use Rattle.liq_word_serve.specs.Ends.{end_of};
ghost use Rattle.liq_store.specs.Keeping.{IsInOrder};

use liq_book::{Closed, Halt, History, Origin};
use liq_outside::Disk;

/// How a service ended.
#[derive(Clone, Copy)]
pub enum End {
    /// Each request of each script got a reply.
    All,
    /// There was no memory for some call, whose script lacks its reply; or for the service, and
    /// nothing was answered at all.
    NoMemory,
    /// A call met a fault of a disk, and no later one got a reply.
    DiskFault(Halt),
}

/// The disks of a service that has ended, its history, and how it ended.
#[derive(Drop)]
pub struct Served<D> {
    pub left: D,
    pub right: D,
    /// All entries, in the order of the one history.
    pub history: History,
    pub end: End,
}

/// What a closed service leaves, of which each session had its whole script answered or not.
pub(crate) fn end_of_service<D: Disk, O: Origin>(closed: Closed<D, O>, whole: bool) -> Served<D>
    ensures left { result.left ≡ closed.store.left }
    ensures right { result.right ≡ closed.store.right }
    ensures history { result.history ≡ closed.history }
    ensures end { result.end ≡ end_of closed.halt whole }
    ensures order { IsInOrder D.at closed.store }
{
    let Closed {
        store,
        history,
        halt,
        of: _,
    } = closed;
    let (left, right) = store.close();
    let end = match halt {
        Some(halt) => End::DiskFault(halt),
        None if whole => End::All,
        None => End::NoMemory,
    };
    Served {
        left,
        right,
        history,
        end,
    }
}
