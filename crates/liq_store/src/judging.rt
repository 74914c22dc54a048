//! Two disks, once each of them was tested whole: a device's fault counts before all else, and what
//! is wrong with the left disk before what is wrong with the right one.
ghost use Rattle.std.specs.Prelude.{◌≡◌, Ok, IfOk, IfErr};
ghost use Rattle.liq_store.specs.Judging.{IsJudged, disk_of, first_of, on_side};
ghost use Rattle.liq_store.specs.Standing.{disk_in};

use crate::answers::{StoreFault, StoreWhy};
use crate::standing::{StandFault, Stood};
use liq_disk_pair::Side;
use liq_disk_records::AcceptedFault;
use liq_outside::Disk;

pub fn disk_of<D: Disk>(stood: Stood<D>) -> D
    ensures { result ≡ disk_of stood }
{
    match stood {
        Stood::Nothing(disk) => disk,
        Stood::Holding(journal, _) => journal.close(),
    }
}

// Why no store is opened, by what one of the disks is.
fn on_side(side: Side, why: AcceptedFault) -> StoreWhy
    ensures { result ≡ on_side side why }
{
    match why {
        AcceptedFault::DiskFault => StoreWhy::DiskFault,
        AcceptedFault::Damaged(damage) => StoreWhy::Damaged { side, damage },
        AcceptedFault::NoMemory => StoreWhy::NoMemory,
    }
}

// Both disks, if nothing was wrong with either. A device's fault comes before all else, and what is
// wrong with the left disk before what is wrong with the right one.
pub fn judge<D: Disk>(
    left: Result<Stood<D>, StandFault<D>>,
    right: Result<Stood<D>, StandFault<D>>,
) -> Result<(Stood<D>, Stood<D>), StoreFault<D>>
    ensures fine { IfOk result (λ both. (left ≡ Ok both.0) × (right ≡ Ok both.1)) }
    ensures left { IfErr result (λ e. e.left ≡ disk_in left) }
    ensures right { IfErr result (λ e. e.right ≡ disk_in right) }
    ensures why { IfErr result (λ e. IsJudged left right e.why) }
{
    match left {
        Ok(left) => match right {
            Ok(right) => Ok((left, right)),
            Err(fault) => Err(StoreFault {
                left: disk_of(left),
                right: fault.disk,
                why: on_side(Side::Right, fault.why),
            }),
        },
        Err(first) => match right {
            Ok(right) => Err(StoreFault {
                left: first.disk,
                right: disk_of(right),
                why: on_side(Side::Left, first.why),
            }),
            Err(fault) => Err(StoreFault {
                left: first.disk,
                right: fault.disk,
                why: first_of(first.why, fault.why),
            }),
        },
    }
}

// Of two faults the left disk's, but a device's before all others.
fn first_of(left: AcceptedFault, right: AcceptedFault) -> StoreWhy
    ensures { result ≡ first_of left right }
{
    match right {
        AcceptedFault::DiskFault => StoreWhy::DiskFault,
        _ => on_side(Side::Left, left),
    }
}
