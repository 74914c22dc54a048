//! Why the accepted commands are not read back.
use liq_journal::{Damage, LookFault};

/// Why the accepted commands could not be read, or not be made again.
#[derive(Clone, Copy)]
pub enum AcceptedFault {
    DiskFault,
    Damaged(Damage),
    NoMemory,
}

impl From<LookFault> for AcceptedFault {
    ghost use Rattle.std.specs.Prelude.{◌≡◌};
    ghost use Rattle.liq_disk_records.specs.Reading.{fault_of};

    ghost from_gives = { λ look fault. fault ≡ fault_of look };

    fn from(fault: LookFault) -> AcceptedFault {
        match fault {
            LookFault::DiskFault => AcceptedFault::DiskFault,
            LookFault::Damaged(damage) => AcceptedFault::Damaged(damage),
        }
    }
}
