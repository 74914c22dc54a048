//! Why there is no review.

ghost use Rattle.std.specs.Prelude.{◌≡◌};
ghost use Rattle.liq_text_audit.specs.Reviewed.{stopped};

use liq_audit::AuditFault;
use liq_disk_replay::ReplayFault;
use liq_journal::{Damage, What};
use liq_types::NoMemory;

/// Why a list of commands has no review.
#[derive(Clone, Copy)]
pub enum ReviewFault {
    /// The command of this number, from 1, is refused with this code; or it is a repetition, and
    /// the code is 0.
    Refused { index: u64, code: u8 },
    /// A limit is passed: by the first sum of the offsets' collateral above
    /// [`liq_types::amounts::LIM`] (gwei), or else by the count of offsets
    /// ([`liq_audit::OFFSETS_MOST`]), or else by that of accounts ([`liq_audit::ACCOUNTS_MOST`]).
    Limit { number: u128 },
    NoMemory,
}

impl From<NoMemory> for ReviewFault {
    ghost use Rattle.liq_text_audit.specs.declared.fault.ReviewFault.{ReviewFault};

    ghost from_gives = { λ _ fault. fault ≡ ReviewFault.NoMemory };

    fn from(_: NoMemory) -> ReviewFault {
        ReviewFault::NoMemory
    }
}

impl From<AuditFault> for ReviewFault {
    ghost use Rattle.liq_text_audit.specs.Audited.{fault_of};

    ghost from_gives = { λ audit fault. fault ≡ fault_of audit };

    fn from(fault: AuditFault) -> ReviewFault {
        match fault {
            AuditFault::AuditLimit { count, .. } => ReviewFault::Limit {
                number: u128::from(count),
            },
            AuditFault::NoMemory => ReviewFault::NoMemory,
        }
    }
}

impl From<ReplayFault> for ReviewFault {
    ghost use Rattle.liq_text_audit.specs.Replaying.{fault_of_replay};

    ghost from_gives = { λ replay fault. fault ≡ fault_of_replay replay };

    fn from(fault: ReplayFault) -> ReviewFault {
        match fault {
            ReplayFault::Damaged(damage) => refused(&damage),
            ReplayFault::NoMemory => ReviewFault::NoMemory,
        }
    }
}

/// The command that a replay does not accept, and why.
fn refused(damage: &Damage) -> ReviewFault
    ensures { result ≡ stopped damage.now }
{
    let code = match damage.what {
        What::Replay { code } => code,
        _ => 0,
    };
    ReviewFault::Refused {
        index: damage.index,
        code,
    }
}
