//! What is shared at a moment.

ghost use Rattle.std.specs.Prelude.{◌≡◌, ◌+◌, ◌≤◌, ◌*◌, ◌^◌};
ghost use Rattle.liq_num.specs.Quotient.{floor_of};
ghost use Rattle.liq_rewards.specs.Earner.{sharing_of, IsSmallDue};

use crate::issuance::{SHARED_LEAST, UNITS_MOST};
use liq_num::mul_div;
use liq_stability::PoolWords;
use liq_types::amounts::{LIM, P_OPENING};

/// Units that are shared by all depositors.
#[derive(Clone, Copy)]
pub struct Sharing {
    pub units: u64,
    /// What a whole deposit gets of them, over 10^18.
    pub rise: u128,
}

impl Sharing {
    /// Units that are due, where they are shared: where there is any, and the pool has at least
    /// [`SHARED_LEAST`].
    pub(crate) fn of(words: &PoolWords, units: u64) -> Option<Sharing>
        requires units { units ≤ UNITS_MOST }
        requires product { words.now.p ≤ P_OPENING }
        ensures sharing { result ≡ sharing_of words.now units }
        ensures small { IsSmallDue words.now result }
    {
        if units == 0 || words.total < SHARED_LEAST {
            return None;
        }
        let rise = rise(units, words.p, words.total);
        Some(Sharing { units, rise })
    }
}

/// What a whole deposit gets of units, rounded down, by the product and the total of then.
fn rise(units: u64, p: u128, total: u64) -> u128
    requires units { units ≤ UNITS_MOST }
    requires product { p ≤ P_OPENING }
    requires total { SHARED_LEAST ≤ total }
    ensures quotient { result ≡ floor_of units p total }
    ensures within { result ≤ UNITS_MOST * 10 ^ 9 }
{
    mul_div(u128::from(units), p, u128::from(total))
}
