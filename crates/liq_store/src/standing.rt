//! One disk, whole: its own bytes tested, and the commands of its journal made again.
ghost use Rattle.std.specs.Prelude.{◌≡◌, Some, Ok, List, ℕ, true, length, IfOk, IfSome};
ghost use Rattle.liq_outside.specs.Disk.{Looked};
ghost use Rattle.liq_journal.specs.Bodies.{IsJournalOf};
ghost use Rattle.liq_journal.specs.Called.{Lasts};
ghost use Rattle.liq_journal.specs.Opened.{CrashOfOpen, ReadsOfOpen};
ghost use Rattle.liq_journal.specs.Written.{Written, found_on, is_generation};
ghost use Rattle.liq_store.specs.Keeping.{IsAtRest};
ghost use Rattle.liq_store.specs.Standing.{Continues, CountsStand, HoldsTo, IsCounted, IsFaultless, IsFoundOn, IsLeftOn, OnlyShuts, disk_in};

use crate::checkpoint::base;
use liq_core_hinted::Guided;
use liq_disk_records::{AcceptedFault, replay};
use liq_journal::{Journal, OpenFault, OpenWhy};
use liq_outside::Disk;
use std::alloc::Global;
use std::marker::Brand;
use std::sync::ledger::Blank;

// What an undamaged disk is.
#[derive(Drop)]
pub enum Stood<D> {
    // No journal is open on it.
    Nothing(D),
    // A journal, and the protocol to which its commands lead.
    Holding(Journal<D>, Guided),
}

// A disk that is damaged or met a fault, or for which there was no memory.
#[derive(Drop)]
pub struct StandFault<D> {
    pub disk: D,
    pub why: AcceptedFault,
}

// Makes the commands of an opened journal again, on the protocol with which it begins.
fn hold<D: Disk>(
    alloc: Global,
    journal: Journal<D>,
    checkpoint: Vec<u8>,
) -> Result<Stood<D>, StandFault<D>>
    ensures looked { Looked D.at journal.disk (disk_in result) }
    ensures holds { (held : List ℕ) (w : Written) → (D.at journal.disk).seen ≡ Some held
        → IsJournalOf journal.generation journal.start held w → w.limit ≡ journal.limit
        → w.checkpoint ≡ checkpoint.items → length w.commands ≡ journal.count → HoldsTo w result }
    ensures journal { Continues journal result }
    ensures cause { CountsStand result (D.at journal.disk).faults (D.at (disk_in result)).faults }
{
    let mut journal = journal;
    let mut protocol = match base(alloc, journal.generation(), journal.limit(), &checkpoint) {
        Ok(protocol) => protocol,
        Err(why) => {
            return Err(StandFault {
                disk: journal.close(),
                why,
            });
        }
    };
    // It is not kept beside the replay.
    drop(checkpoint);
    // odd: steps counted
    match replay::<D, Brand>(&mut protocol, &mut journal, Blank::new(1)) {
        Ok(()) => Ok(Stood::Holding(journal, protocol)),
        Err(why) => Err(StandFault {
            disk: journal.close(),
            why,
        }),
    }
}

// Opens and tests a disk, whole, and settles it. It begins with a sync.
pub fn stand<D: Disk>(alloc: Global, disk: D, odd: bool) -> Result<Stood<D>, StandFault<D>>
    // The answer is what the disk is, and the disk is left so.
    ensures found { (held : List ℕ) → (D.at disk).seen ≡ Some held → IsFoundOn odd held result }
    ensures left { IfSome (D.at (disk_in result)).seen (λ after. IsLeftOn after result) }
    ensures same { IsFaultless result → (held after : List ℕ) → (D.at disk).seen ≡ Some held
        → (D.at (disk_in result)).seen ≡ Some after → found_on odd after ≡ found_on odd held }
    ensures shut { IsFaultless result → (held after : List ℕ) → (D.at disk).seen ≡ Some held
        → (D.at (disk_in result)).seen ≡ Some after → OnlyShuts odd held after }
    ensures rest { IsFaultless result → IsAtRest D.at (disk_in result) }
    ensures journal { IfOk result (IsCounted odd) }

    ensures crash { CrashOfOpen D.at disk (disk_in result) odd }
    ensures reads { ReadsOfOpen D.at disk (disk_in result) odd }
    ensures lasts { Lasts D.at disk (disk_in result) }
    ensures cause { CountsStand result (D.at disk).faults (D.at (disk_in result)).faults }
{
    match Journal::open(alloc, disk, odd) {
        Ok((journal, checkpoint)) => hold(alloc, journal, checkpoint),
        Err(OpenFault { disk, why }) => match why {
            OpenWhy::Absent => Ok(Stood::Nothing(disk)),
            OpenWhy::DiskFault => Err(StandFault {
                disk,
                why: AcceptedFault::DiskFault,
            }),
            OpenWhy::Damaged(damage) => Err(StandFault {
                disk,
                why: AcceptedFault::Damaged(damage),
            }),
            OpenWhy::NoMemory => Err(StandFault {
                disk,
                why: AcceptedFault::NoMemory,
            }),
        },
    }
}
