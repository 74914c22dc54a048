//! The word `serve`: what the lines of all sessions ask is answered at once over two disks, and the
//! history is written.

ghost use Rattle.std.specs.Prelude.{◌≡◌, ◌↔◌, [], IsSome};
ghost use Rattle.liq_outside.specs.Disk.{GoesOn};
ghost use Rattle.liq_types.specs.declared.amounts.TheConstants.{LINES_MOST};
ghost use Rattle.liq_store.specs.Causes.{counts_of};
ghost use Rattle.liq_text_lines.specs.Reading.{taken_most, ReadsAtMost};
ghost use Rattle.liq_text_lines.specs.declared.stops.Stop.{Stop};
ghost use Rattle.liq_text_scripts.specs.Gathering.{ReadCause};
ghost use Rattle.liq_word_serve.specs.Input.{AreAtRest, DiskCause, IsFinishOf, IsShown, ServesInput, WriteCause, Written};
ghost use Rattle.liq_word_serve.specs.Input.{reading_of};

use crate::served::{End, Served};
use crate::serving::serve_sessions;
use liq_core::laws::protocols_stand;
use liq_outside::{Disk, Failed, Sink, Source};
use liq_sessions::Gate;
use liq_store::{Store, StoreFault, StoreWhy};
use liq_text_scripts::{Outbox, Stop, read_scripts, write_served};
use liq_types::Entry;
use std::alloc::Global;
use std::sync::Wait;
use std::thread::Threads;

/// How serving an input came to its end.
#[derive(Clone, Copy)]
pub enum Finish {
    /// Each line was answered, and all is written.
    All,
    /// The input was not read to its end, or there was no memory for the output. Nothing was
    /// opened.
    NotRead(Stop),
    /// No store was opened.
    NotOpened(StoreWhy),
    /// There was no memory for the sessions, or for a call. Nothing is written.
    NoMemory,
    /// A call met a fault of a disk. Nothing is written.
    DiskFault,
    /// Each line was answered. The sink met a fault, and a part is written.
    WriteFault,
}

/// The disks as serving leaves them, and how it came to its end.
#[derive(Drop)]
pub struct Finished<D> {
    pub left: D,
    pub right: D,
    pub finish: Finish,
}

/// Reads the input to its end, each line a session from 1 to 8 and its request; opens the store of
/// two disks; answers the lines of all sessions at once, each session's in order; and writes the
/// one history of what was answered.
///
/// Where the input was not read to its end the disks are as they were. Some call met a fault of a
/// disk exactly where the finish is [`Finish::DiskFault`], whatever other calls were told; want of
/// memory is told only where none did. Where all was answered `out` is shown the disks before the
/// first byte of the history, as no call can touch them from then on: nothing is pending on them.
pub fn serve_input<S: Source, K: Sink, D: Disk + Send, G: Gate + Sync, R: Threads + Wait + Sync>(
    rt: &R,
    alloc: Global,
    gate: &G,
    input: &mut S,
    out: &mut K,
    left: D,
    right: D,
) -> Finished<D>
    ensures served { ServesInput K.at D.at (S.at input.old).left (S.at input.new).left
        out.old out.new left right result }
    ensures shown { IsShown D.at K.at result.left result.right out.old out.new result.finish }
    ensures rests { AreAtRest D.at result.left result.right result.finish }
    ensures unread { (stop : Stop) → result.finish ≡ Finish.NotRead stop
        → (result.left ≡ left) × (result.right ≡ right) }

    // At most as many lines are taken from the source as are read, and what one read asks for.
    ensures takes { ReadsAtMost (taken_most LINES_MOST)
        (S.at input.old).left (S.at input.new).left }

    // A fault has its cause, and none is passed over.
    ensures source { ReadCause (reading_of result.finish)
        (S.at input.old).faults (S.at input.new).faults }
    ensures sink { WriteCause result.finish (K.at out.old).faults (K.at out.new).faults }
    ensures disks { DiskCause result.finish
        (counts_of D.at left right) (counts_of D.at result.left result.right) }

    // A disk that told its bytes tells them afterwards, and one that told none tells none.
    ensures left_telling { IsSome (D.at result.left).seen ↔ IsSome (D.at left).seen }
    ensures right_telling { IsSome (D.at result.right).seen ↔ IsSome (D.at right).seen }

    // Time goes on at both disks, and what a crash may have left of them before stays what it was.
    ensures left_time { GoesOn D.at left result.left }
    ensures right_time { GoesOn D.at right result.right }
{
    let Ok(mut outbox) = Outbox::new(alloc) else {
        let finish = Finish::NotRead(Stop::NoMemory);
        return Finished {
            left,
            right,
            finish,
        };
    };
    let scripts = match read_scripts(alloc, input) {
        Ok(scripts) => scripts,
        Err(stop) => {
            let finish = Finish::NotRead(stop);
            return Finished {
                left,
                right,
                finish,
            };
        }
    };
    let store = match Store::open(alloc, left, right) {
        Ok(store) => store,
        Err(fault) => {
            let StoreFault { left, right, why } = fault;
            let finish = Finish::NotOpened(why);
            return Finished {
                left,
                right,
                finish,
            };
        }
    };
    // odd: law called
    protocols_stand(store.protocol());
    let Served {
        left,
        right,
        history,
        end,
    } = serve_sessions(rt, alloc, gate, scripts, store);
    let finish = write_end(end, &left, &right, history.as_slice(), &mut outbox, out);
    Finished {
        left,
        right,
        finish,
    }
}

/// Shows the disks and writes the history, of sessions of which each was answered to its end.
fn write_end<K: Sink, D: Disk>(
    end: End,
    left: &D,
    right: &D,
    history: &[Entry],
    outbox: &mut Outbox,
    out: &mut K,
) -> Finish
    requires { outbox.old ≡ [] }
    ensures finish { IsFinishOf end result }
    ensures written { Written K.at result history.now out.old out.new }
    ensures shown { IsShown D.at K.at left.now right.now out.old out.new result }
    ensures cause { WriteCause result (K.at out.old).faults (K.at out.new).faults }
{
    match end {
        End::All => {
            out.show(left, right);
            match write_served(history, outbox, out) {
                Ok(()) => Finish::All,
                Err(Failed) => Finish::WriteFault,
            }
        }
        End::NoMemory => Finish::NoMemory,
        End::DiskFault(_) => Finish::DiskFault,
    }
}
