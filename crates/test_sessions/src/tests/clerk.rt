//! A seat with its number, which makes entries.
ghost use Rattle.std.specs.Prelude.{◌≡◌};
ghost use Rattle.liq_lock.specs.Seats.{number_of};

pub mod turns;

use crate::tests::ledger::Entry;
use liq_lock::LockSeat;

/// A seat of a lock, its number, and how many entries it made.
#[derive(Drop)]
pub struct Clerk {
    pub seat: LockSeat<Entry>,
    pub number: u32,
    pub made: u32,
    pub ghost numbered: { number_of seat ≡ number },
}
