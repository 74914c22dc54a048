//! An account's exact share between whole numbers.

ghost use Rattle.std.specs.Prelude.{◌≡◌, ◌+◌, ◌-◌, ◌<◌, ◌≤◌};
ghost use Rattle.liq_audit.specs.Enclosure.{enclosure_after, enclosure_shared, nothing_enclosed, HasParts, IsSmall};

use liq_num::{mul_div, mul_div_up};
use liq_types::PoolEvent;

/// Whole numbers between which an account's exact share lies: the balance in micro-LUSD, the gain
/// in gwei.
#[derive(Clone, Copy)]
pub struct Enclosure {
    pub balance_lo: u128,
    pub balance_hi: u128,
    pub gain_lo: u128,
    pub gain_hi: u128,
}

impl Enclosure {
    /// The enclosure of an account before its first event: it has nothing.
    pub fn nothing() -> Enclosure
        ensures { result ≡ nothing_enclosed }
    {
        Enclosure {
            balance_lo: 0,
            balance_hi: 0,
            gain_lo: 0,
            gain_hi: 0,
        }
    }

    /// The enclosure of `account` after one more event.
    pub fn after(self, account: u32, event: &PoolEvent) -> Enclosure
        requires small { IsSmall self }
        requires parts { HasParts event.now }
        ensures { result ≡ enclosure_after account self event.now }
    {
        match *event {
            PoolEvent::Own {
                account: owner,
                put,
                paid,
                ..
            } => {
                if owner == account {
                    self.moved(put, paid)
                } else {
                    self
                }
            }
            PoolEvent::Offset {
                debt,
                coll,
                total,
                ..
            } => self.shared(debt, coll, total),
        }
    }

    /// The enclosure after LUSD was put in and paid out, at least 0.
    fn moved(self, put: u64, paid: u64) -> Enclosure
        requires { IsSmall self }
        ensures { result ≡ record self {
          balance_lo = self.balance_lo + put - paid;
          balance_hi = self.balance_hi + put - paid;
        } }
    {
        Enclosure {
            balance_lo: (self.balance_lo + u128::from(put)).saturating_sub(u128::from(paid)),
            balance_hi: (self.balance_hi + u128::from(put)).saturating_sub(u128::from(paid)),
            ..self
        }
    }

    /// The enclosure after an offset: the gain grows by the balance before it.
    fn shared(self, debt: u64, coll: u64, total: u64) -> Enclosure
        requires small { IsSmall self }
        requires some { 0 < total }
        requires within { debt ≤ total }
        ensures { result ≡ enclosure_shared self debt coll total }
    {
        let rest = u128::from(total - debt);
        let coll = u128::from(coll);
        let total = u128::from(total);
        Enclosure {
            balance_lo: mul_div(self.balance_lo, rest, total),
            balance_hi: mul_div_up(self.balance_hi, rest, total),
            gain_lo: self.gain_lo + mul_div(self.balance_lo, coll, total),
            gain_hi: self.gain_hi + mul_div_up(self.balance_hi, coll, total),
        }
    }
}
