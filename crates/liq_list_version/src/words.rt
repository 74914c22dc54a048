//! The words of the sums, from which the key of a trove that opens is reckoned.
ghost use Rattle.std.specs.Prelude.{◌≡◌, ◌<◌, ◌^◌, pos, ◌-ℤ◌, ◌<ℤ◌, List, [], MatchOption};
ghost use Rattle.liq_num.specs.Quotient.{floor_of};
ghost use Rattle.liq_types.specs.declared.amounts.TheConstants.{ONE as one};
ghost use Rattle.liq_types.specs.Ranked.{Ranked};
ghost use Rattle.liq_types.specs.Views.{all_followed, followed, debt_seen, key_seen, stake_seen};
ghost use Rattle.liq_list_version.specs.Words.{seen};

use liq_num::mul_div;
use liq_types::ListChange;
use liq_types::amounts::{FLOOR_RATE, ONE, RESERVE};

#[derive(Clone, Copy)]
pub(crate) struct Words {
    pub(crate) snap_stakes: u64,
    pub(crate) snap_coll: u64,
    pub(crate) sum_debt: u128,
}

impl Words {
    pub(crate) const NONE: Words = Words {
        snap_stakes: 0,
        snap_coll: 0,
        sum_debt: 0,
    };

    // The words after changes.
    pub(crate) fn after(self, changes: &[ListChange]) -> Words
        ensures { (list : List Ranked) → all_followed (seen list self) changes.now
            ≡ seen (all_followed (seen list self) changes.now).list result }
    {
        let mut words = self;
        for change in changes {
            words = words.followed(change);
        }
        words
    }

    fn followed(self, change: &ListChange) -> Words
        ensures { (list : List Ranked) → followed (seen list self) change.now
            ≡ seen (followed (seen list self) change.now).list result }
    {
        match *change {
            ListChange::Words {
                snap_stakes,
                snap_coll,
                sum_debt,
            } => Words {
                snap_stakes,
                snap_coll,
                sum_debt,
            },
            ListChange::Put { .. } | ListChange::Gone { .. } => self,
        }
    }

    // The key under which a trove would open. None where it lies below all that an i128 can be.
    pub(crate) fn key(&self, coll: u64, borrow: u64) -> Option<i128>
        ensures { MatchOption result (key_seen (seen [] self.now) coll borrow <ℤ i128.MIN)
            (λ key. key ≡ key_seen (seen [] self.now) coll borrow) }
    {
        difference(self.owed_by_unit(coll, borrow), self.sum_debt)
    }

    // What a unit of the trove's stake would owe, over 10^18.
    fn owed_by_unit(&self, coll: u64, borrow: u64) -> u128
        ensures unit { result ≡ floor_of (debt_seen borrow) one
            (stake_seen (seen [] self.now) coll) }
        ensures fits { result < 2 ^ 127 }
    {
        mul_div(debt(borrow), u128::from(ONE), self.stake(coll))
    }

    fn stake(&self, coll: u64) -> u128
        ensures stake { result ≡ stake_seen (seen [] self.now) coll }
        ensures some { 0 < result }
    {
        let coll = u128::from(coll);
        if self.snap_coll == 0 {
            return coll.max(1);
        }
        let stakes = u128::from(self.snap_stakes);
        mul_div(coll, stakes, u128::from(self.snap_coll)).max(1)
    }
}

// What would be owed: the borrowing, the fee on it at the least rate, and the reserve.
fn debt(borrow: u64) -> u128
    ensures debt { result ≡ debt_seen borrow }
    ensures fits { result < 2 ^ 65 }
{
    let borrow = u128::from(borrow);
    let fee = mul_div(borrow, u128::from(FLOOR_RATE), u128::from(ONE));
    borrow + fee + u128::from(RESERVE)
}

// What is left of a number below 2^127, or less than nothing. None where it lies below all that an
// i128 can be.
fn difference(from: u128, less: u128) -> Option<i128>
    requires { from < 2 ^ 127 }
    ensures { MatchOption result ((pos from -ℤ pos less) <ℤ i128.MIN) (λ key. key
        ≡ pos from -ℤ pos less) }
{
    if less <= from {
        return Some((from - less) as i128);
    }
    // The lowest i128 is one further from 0 than the highest.
    match i128::try_from(less - from - 1) {
        Ok(below) => Some(-1 - below),
        Err(_) => None,
    }
}
