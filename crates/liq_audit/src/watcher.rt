//! An account's allowance: by how much what the pool gives it may fall short of its exact share.

ghost use Rattle.std.specs.Prelude.{◌≡◌, ◌+◌, ◌*◌, ◌^◌, ◌<◌, ◌≤◌, if◌then◌else◌};
ghost use Rattle.liq_num.specs.Quotient.{ceiling_of};
ghost use Rattle.liq_audit.specs.Watching.{nothing_watched, watcher_after, cost_now, IsShort, weight_most};

use crate::rows::OFFSETS_MOST;
use liq_num::mul_div_up;
use liq_types::PoolEvent;

/// One step of the scale.
const STEP: u64 = 1_000_000_000;

/// What an account's allowance is made of.
#[derive(Clone, Copy)]
pub struct Watcher {
    /// The scale and the epoch of now.
    pub scale: u64,
    pub epoch: u64,
    /// The amount recorded by the account's last own operation, in micro-LUSD, and the scale and
    /// the epoch of then.
    pub amount: u64,
    pub own_scale: u64,
    pub own_epoch: u64,
    /// What the offsets may have cost it, in 10^9ths of a micro-LUSD.
    pub weight: u128,
    pub own_events: u64,
}

impl Watcher {
    /// What is watched of an account before the first event.
    pub fn new() -> Watcher
        ensures { result ≡ nothing_watched }
    {
        Watcher {
            scale: 0,
            epoch: 0,
            amount: 0,
            own_scale: 0,
            own_epoch: 0,
            weight: 0,
            own_events: 0,
        }
    }

    /// What is watched of `account` after one more event.
    pub fn after(self, account: u32, event: &PoolEvent) -> Watcher
        requires { IsShort self event.now }
        ensures after { result ≡ watcher_after account self event.now }
        ensures weight { result.weight ≤ self.weight + weight_most event.now }
    {
        match *event {
            PoolEvent::Own {
                account: owner,
                amount,
                ..
            } => {
                if owner == account {
                    self.owned(amount)
                } else {
                    self
                }
            }
            PoolEvent::Offset {
                debt,
                total,
                rise,
                ..
            } => self.offset(debt == total, rise),
        }
    }

    /// What is watched after an own operation of the account, which leaves this amount.
    fn owned(self, amount: u64) -> Watcher
        requires { self.own_events < 2 ^ 41 }
        ensures { result ≡ record self {
          amount = amount;
          own_scale = self.scale;
          own_epoch = self.epoch;
          own_events = self.own_events + 1;
        } }
    {
        Watcher {
            amount,
            own_scale: self.scale,
            own_epoch: self.epoch,
            own_events: self.own_events + 1,
            ..self
        }
    }

    /// What is watched after an offset, which ends the epoch or raises the scale.
    fn offset(self, ends: bool, rise: u64) -> Watcher
        requires epoch { self.epoch < 2 ^ 41 }
        requires scale { self.scale + rise < 2 ^ 62 }
        requires weight { self.weight < 2 ^ 120 }
        ensures { result ≡ record self {
          epoch = if ends then self.epoch + 1 else self.epoch;
          scale = if ends then 0 else self.scale + rise;
          weight = self.weight + cost_now self;
        } }
    {
        let weight = self.weight + u128::from(self.cost());
        if ends {
            Watcher {
                epoch: self.epoch + 1,
                scale: 0,
                weight,
                ..self
            }
        } else {
            Watcher {
                scale: self.scale + rise,
                weight,
                ..self
            }
        }
    }

    /// What an offset may cost the account now.
    fn cost(self) -> u64
        ensures { result ≡ cost_now self }
    {
        if self.amount == 0 || self.epoch != self.own_epoch {
            return 0;
        }
        match self.scale.saturating_sub(self.own_scale) {
            0 => self.amount,
            1 => self.amount.div_ceil(STEP),
            2 => self.amount.div_ceil(STEP * STEP),
            // The amount has less than 27 digits.
            _ => 1,
        }
    }

    /// By how much the balance may be less than the exact one, in micro-LUSD.
    pub fn balance_allowance(self) -> u64
        requires weight { self.weight ≤ OFFSETS_MOST * 2 ^ 64 }
        requires own_events { self.own_events ≤ 2 ^ 40 }
        ensures { result ≡ ceiling_of self.weight 1 (10 ^ 9) + self.own_events }
    {
        let rounded = mul_div_up(self.weight, 1, u128::from(STEP));
        rounded as u64 + self.own_events
    }

    /// By how much the gain may be less than the exact one, in gwei.
    pub fn gain_allowance(self) -> u64
        requires weight { self.weight ≤ OFFSETS_MOST * 2 ^ 64 }
        requires own_events { self.own_events ≤ 2 ^ 40 }
        ensures { result ≡ ceiling_of 12 self.weight (10 ^ 9) + 15 * self.own_events }
    {
        let rounded = mul_div_up(12, self.weight, u128::from(STEP));
        rounded as u64 + 15 * self.own_events
    }
}
