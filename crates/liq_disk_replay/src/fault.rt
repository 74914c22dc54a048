//! Why a replay does not come to its end.

ghost use Rattle.std.specs.Prelude.{◌≡◌};

use liq_journal::Damage;
use liq_types::NoMemory;

/// Why a list of commands is not replayed to its end.
#[derive(Clone, Copy)]
pub enum ReplayFault {
    /// A command is not accepted: the damage tells its number, from 1, and the refusal's code, or 0
    /// for a repetition.
    Damaged(Damage),
    NoMemory,
}

impl From<NoMemory> for ReplayFault {
    ghost use Rattle.liq_disk_replay.specs.declared.fault.ReplayFault.{ReplayFault};

    ghost from_gives = { λ _ fault. fault ≡ ReplayFault.NoMemory };

    fn from(_: NoMemory) -> ReplayFault {
        ReplayFault::NoMemory
    }
}
