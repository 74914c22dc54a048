//! Why a run stops.

ghost use Rattle.std.specs.Prelude.{◌≡◌, ◌↔◌, ◌≤◌, ◌<◌, ◌+◌, ◌^◌, IsTrue};
ghost use Rattle.liq_word_exit.specs.Fed.{end_of_feed};

use liq_disk_pair::Side;
use liq_follower::FedEnd;
use liq_store::StoreWhy;
use liq_types::NoMemory;

/// Why a run stops before its end.
#[derive(Clone, Copy)]
pub enum Halt {
    /// The line of this number is no request.
    BadLine(u64),
    /// The source met a fault.
    ReadFault,
    /// The sink met a fault.
    WriteFault,
    /// A disk met a fault.
    DiskFault,
    /// The disk of this side is damaged at the record of this number; 0 is its header.
    Damaged(Side, u64),
    /// The journal that came in is damaged at the record of this number; 0 is its header.
    DamagedInput(u64),
    /// There was no memory.
    NoMemory,
    /// This number of lines is all that one run answers, or of bytes all that are followed, and
    /// there are more; or a number above a limit of the audit.
    Limit(u128),
    /// The journal is of this generation, above the first, so that the commands before it are gone.
    Rotated(u64),
}

impl Halt {
    /// The line behind so many is no request. Lines are counted from 1.
    pub fn bad_line(before: u64) -> Halt
        requires { before + 1 < 2 ^ 64 }
        ensures { result ≡ Halt.BadLine (before + 1) }
    {
        Halt::BadLine(before + 1)
    }
}

/// Whether a journal of this generation has all commands since the opening. A later one begins with
/// a checkpoint in place of those before it.
pub fn has_all_commands(generation: u64) -> bool
    ensures { IsTrue result ↔ generation ≤ 1 }
{
    generation <= 1
}

/// How following goes on where a feed ended so.
pub fn end_of_feed(end: FedEnd) -> Result<(), Halt>
    ensures { result ≡ end_of_feed end }
{
    match end {
        FedEnd::All => Ok(()),
        FedEnd::NoMemory => Err(Halt::NoMemory),
        FedEnd::Damaged { index } => Err(Halt::DamagedInput(index)),
        FedEnd::Rotated { generation } => Err(Halt::Rotated(generation)),
    }
}

impl From<NoMemory> for Halt {
    ghost use Rattle.liq_word_exit.specs.declared.halts.Halt.{Halt};

    ghost from_gives = { λ _ halt. halt ≡ Halt.NoMemory };

    fn from(_: NoMemory) -> Halt {
        Halt::NoMemory
    }
}

impl From<StoreWhy> for Halt {
    ghost use Rattle.liq_word_exit.specs.declared.halts.Halt.{Halt};
    ghost use Rattle.liq_word_exit.specs.Unopened.{halt_of};

    ghost from_gives = { λ why halt. halt ≡ halt_of why };

    fn from(why: StoreWhy) -> Halt {
        match why {
            StoreWhy::DiskFault => Halt::DiskFault,
            StoreWhy::Damaged { side, damage } => Halt::Damaged(side, damage.index),
            StoreWhy::NoMemory => Halt::NoMemory,
        }
    }
}
