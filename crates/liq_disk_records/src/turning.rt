//! How a rotation turns to the other disk.
ghost use Rattle.std.specs.Prelude.{◌≡◌, ◌≤◌, ◌<◌, ◌^◌, ◌+◌, Some, List, ℕ, length, true, MatchResult, IfOk};
ghost use Rattle.std.specs.Prelude.{IfSome, OnErr, OnOk};
ghost use Rattle.liq_outside.specs.Disk.{LeftNow, Only};
ghost use Rattle.liq_types.specs.declared.amounts.TheConstants.{LIM};
ghost use Rattle.liq_journal.specs.Called.{Lasts};
ghost use Rattle.liq_journal.specs.Calls.{SettledIn, creating_calls};
ghost use Rattle.liq_journal.specs.Causes.{Counted};
ghost use Rattle.liq_journal.specs.Crash.{CrashOfCreate, Stands, beginning, is_odd};
ghost use Rattle.liq_journal.specs.Settled.{IsSettled};
ghost use Rattle.liq_journal.specs.Written.{is_size, start_of};
ghost use Rattle.liq_disk_pair.specs.Sides.{other};

use liq_disk_pair::Side;
use liq_journal::{DiskFault, Journal};
use liq_outside::Disk;

/// Begins the next generation with this checkpoint on the disk beside the one that is taken, as
/// `Journal::begin_generation` does, and tells the side that is taken from then on: the other one.
/// After `DiskFault` the same disk is taken, and its journal is as it was.
pub fn begin_generation<D: Disk>(
    taken: &mut Journal<D>,
    beside: &mut D,
    side: Side,
    checkpoint: &[u8],
) -> Result<Side, DiskFault>
    requires more { taken.old.generation + 1 < 2 ^ 64 }
    requires limit { length checkpoint.now ≤ 2 ^ 36 }
    requires size { is_size (taken.old.generation + 1) (length checkpoint.now) ≡ true }
    ensures side { IfOk result (λ now. now ≡ other side) }

    ensures exchanged { OnOk result (beside.new ≡ taken.old.disk) }
    ensures kept { OnErr result (taken.new ≡ taken.old) }
    ensures known { OnOk result ((taken.new.generation ≡ taken.old.generation + 1)
        × (taken.new.limit ≡ LIM)
        × (taken.new.start ≡ start_of (beginning (taken.old.generation + 1) checkpoint.now))
        × (taken.new.count ≡ 0)) }

    // The disk that was beside is the journal's at `Ok`, and still beside after a fault.
    ensures created { OnOk result ((held : List ℕ) → (D.at beside.old).seen ≡ Some held
        → (after : List ℕ) × ((D.at taken.new.disk).seen ≡ Some after)
        × Stands (is_odd (taken.old.generation + 1)) after
        (beginning (taken.old.generation + 1) checkpoint.now)) }
    ensures settled { OnOk result (IfSome (D.at taken.new.disk).seen
        (IsSettled taken.new.generation taken.new.start taken.new.count)) }
    ensures durable { OnOk result (IfSome (D.at taken.new.disk).seen
        (λ after. Only after (LeftNow D.at taken.new.disk))) }
    ensures crash { MatchResult result
        (λ _. CrashOfCreate D.at beside.old taken.new.disk
        (taken.old.generation + 1) checkpoint.now)
        (λ _. CrashOfCreate D.at beside.old beside.new (taken.old.generation + 1) checkpoint.now) }
    // Its device calls are those of `Journal::begin_generation`.
    ensures calls { OnOk result (SettledIn D.at 0 (creating_calls checkpoint.now)
        beside.old taken.new.disk) }
    ensures lasts { MatchResult result
        (λ _. Lasts D.at beside.old taken.new.disk)
        (λ _. Lasts D.at beside.old beside.new) }
    ensures cause { MatchResult result
        (λ _. (D.at taken.new.disk).faults ≡ (D.at beside.old).faults)
        (λ _. Counted (D.at beside.old).faults (D.at beside.new).faults) }
{
    match taken.begin_generation(beside, checkpoint) {
        Ok(()) => Ok(side.other()),
        Err(fault) => Err(fault),
    }
}
