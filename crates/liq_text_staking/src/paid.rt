//! The fees that commands pay.

ghost use Rattle.std.specs.Prelude.{◌≡◌, []};
ghost use Rattle.liq_text_staking.specs.Paid.{fee_of};

use liq_core::{Planned, Protocol};
use liq_disk_replay::Onlooker;
use liq_types::{Done, NoMemory};
use std::alloc::Global;

/// The fees of commands that are made again, one of each.
#[derive(Drop)]
pub(crate) struct Paid {
    fees: Vec<(u64, u64)>,
}

impl Paid {
    pub(crate) fn new(alloc: Global) -> Paid
        ensures { result.fees.items ≡ [] }
    {
        Paid {
            fees: Vec::new(alloc),
        }
    }

    /// Collateral (gwei) and LUSD (micro-LUSD) of each.
    pub(crate) fn fees(&self) -> &[(u64, u64)]
        ensures { result.now ≡ self.now.fees.items }
    {
        self.fees.as_slice()
    }
}

impl Onlooker for Paid {
    ghost use Rattle.std.specs.Prelude.{[], ◌∷◌};
    ghost use Rattle.liq_text_staking.specs.Paid.{fee_of};

    type Note = (u64, u64);

    ghost notes = { λ paid. paid.fees.items };

    ghost adds = { λ minute done events. fee_of done ∷ [] };

    fn see(&mut self, _before: &Protocol, planned: &Planned) -> Result<(), NoMemory> {
        let Ok(()) = self.fees.push(fee_paid(planned.done())) else {
            return Err(NoMemory);
        };
        Ok(())
    }
}

/// The fee that a command paid, by its reply: collateral (gwei) and LUSD (micro-LUSD). Opening a
/// trove (6) and adjusting it (7) pay LUSD, redeeming (14) pays collateral.
fn fee_paid(done: &Done) -> (u64, u64)
    ensures { result ≡ fee_of done.now }
{
    match done.kind {
        6 => (0, done.values[1]),
        7 => (0, done.values[2]),
        14 => (done.values[2], 0),
        _ => (0, 0),
    }
}
