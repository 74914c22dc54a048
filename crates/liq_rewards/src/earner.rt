//! What is kept of an account.

ghost use Rattle.std.specs.Prelude.{◌≡◌, ◌+◌, ◌*◌, ◌^◌, ◌≤◌, ◌<◌, ◌==◌, if◌then◌else◌};
ghost use Rattle.liq_num.specs.Quotient.{floor_of, ceiling_of};
ghost use Rattle.liq_rewards.specs.Earner.{no_earner, no_sums, cost_now, balance_short, sums_risen, shared_with};
ghost use Rattle.liq_rewards.specs.Earner.{dealt_with, part_by, reading_by, reward_by, owned_by, earner_after};
ghost use Rattle.liq_rewards.specs.Earner.{allowance_by, SUM_MOST, IsSmallSharing, IsSmallDue, IsSmall, CanGoOn};

use crate::issuance::UNITS_MOST;
use crate::sharing::Sharing;
use liq_num::{mul_div, mul_div_up};
use liq_stability::PoolWords;
use liq_types::PoolEvent;
use liq_types::amounts::{LIM, P_LEAST};

/// One step of the scale.
const STEP: u64 = 1_000_000_000;

/// How the sums of an epoch grew since a mark, at the mark's scale and the next three: what a whole
/// deposit got, over 10^18.
#[derive(Clone, Copy)]
pub struct Sums {
    pub first: u128,
    pub second: u128,
    pub third: u128,
    pub fourth: u128,
}

/// What is kept of an account.
#[derive(Clone, Copy)]
pub struct Earner {
    pub account: u32,
    /// What its last own operation left, in micro-LUSD.
    pub amount: u64,
    /// The pool's product, scale and epoch of then.
    pub p: u128,
    pub scale: u64,
    pub epoch: u64,
    /// How the sums have grown since then.
    pub sums: Sums,
    /// The units that it had earned then.
    pub earned: u64,
    pub own_events: u64,
    /// What the offsets may have cost its balance, in 10^9ths of a micro-LUSD.
    pub weight: u128,
    /// What the sharings may have withheld, since its balance falls short.
    pub withheld: u128,
    /// What the sharings may have cost it, in 10^9ths of a unit.
    pub costs: u128,
}

impl Earner {
    /// An account without an own operation.
    pub(crate) fn none(account: u32) -> Earner
        ensures { result ≡ no_earner account }
    {
        Earner {
            account,
            amount: 0,
            p: 0,
            scale: 0,
            epoch: 0,
            sums: Sums::none(),
            earned: 0,
            own_events: 0,
            weight: 0,
            withheld: 0,
            costs: 0,
        }
    }

    /// What is due is dealt with, and then an event happens. The words are those before that event.
    pub(crate) fn go_on(&mut self, words: &PoolWords, sharing: Option<Sharing>, event: &PoolEvent)
        requires { CanGoOn words.now sharing self.old }
        ensures { self.new ≡ earner_after words.now sharing event.now self.old }
    {
        self.deal(words, sharing);
        match *event {
            PoolEvent::Own {
                account,
                amount,
                ..
            } => {
                if account == self.account {
                    self.own(words, amount);
                }
            }
            PoolEvent::Offset { .. } => self.weight += u128::from(self.cost(words)),
        }
    }

    /// The units that are due are shared or counted as unshared.
    pub(crate) fn deal(&mut self, words: &PoolWords, sharing: Option<Sharing>)
        requires due { IsSmallDue words.now sharing }
        requires small { IsSmall self.old }
        ensures { self.new ≡ dealt_with self.old words.now sharing }
    {
        if let Some(sharing) = sharing {
            self.share(words, sharing);
        }
    }

    /// All units that it has earned.
    pub(crate) fn reward(&self) -> u64
        requires small { IsSmall self.now }
        requires within { reward_by self.now ≤ UNITS_MOST }
        ensures { result ≡ reward_by self.now }
    {
        self.earned + self.reading()
    }

    /// By how much they may fall short.
    pub(crate) fn allowance(&self) -> u128
        requires { IsSmall self.now }
        ensures { result ≡ allowance_by self.now }
    {
        self.withheld
            + mul_div_up(self.costs, 1, u128::from(STEP))
            + 4 * u128::from(self.own_events)
    }

    /// Units are shared.
    fn share(&mut self, words: &PoolWords, sharing: Sharing)
        requires due { IsSmallSharing words.now sharing }
        requires small { IsSmall self.old }
        ensures { self.new ≡ shared_with self.old words.now sharing }
    {
        let withheld = self.withheld_of(sharing.units, words.total);
        let cost = u128::from(self.cost(words));
        self.raise(words, sharing.rise);
        self.withheld += withheld;
        self.costs += cost;
    }

    /// An own operation leaves this amount: what was earned so far is settled first.
    fn own(&mut self, words: &PoolWords, amount: u64)
        requires small { IsSmall self.old }
        requires within { reward_by self.old ≤ UNITS_MOST }
        ensures { self.new ≡ owned_by self.old words.now amount }
    {
        self.earned = self.reward();
        self.amount = amount;
        self.p = words.p;
        self.scale = words.scale;
        self.epoch = words.epoch;
        self.sums = Sums::none();
        self.own_events += 1;
    }

    /// How much of the units the account may have missed since its balance falls short.
    fn withheld_of(&self, units: u64, total: u64) -> u128
        requires small { IsSmall self.now }
        requires units { units ≤ UNITS_MOST }
        requires total { 1 ≤ total }
        ensures withheld { result ≡ ceiling_of units (balance_short self.now) total }
        ensures within { result ≤ 2 ^ 122 }
    {
        let short = mul_div_up(self.weight, 1, u128::from(STEP)) + u128::from(self.own_events);
        mul_div_up(u128::from(units), short, u128::from(total))
    }

    /// The sum of now rises. An amount of nothing needs none.
    fn raise(&mut self, words: &PoolWords, rise: u128)
        requires small { IsSmall self.old }
        requires rise { rise ≤ SUM_MOST }
        ensures { self.new ≡ record self.old {
          sums = if self.old.amount == 0 then self.old.sums
              else sums_risen self.old words.now rise;
        } }
    {
        if self.amount == 0 || words.epoch != self.epoch || words.scale < self.scale {
            return;
        }
        match words.scale - self.scale {
            0 => self.sums.first += rise,
            1 => self.sums.second += rise,
            2 => self.sums.third += rise,
            3 => self.sums.fourth += rise,
            _ => {}
        }
    }

    /// What was earned since the mark.
    fn reading(&self) -> u64
        requires small { IsSmall self.now }
        requires within { reading_by self.now ≤ UNITS_MOST }
        ensures { result ≡ reading_by self.now }
    {
        if self.amount == 0 {
            return 0;
        }
        let parts = self.part(self.sums.first, 0)
            + self.part(self.sums.second, 1)
            + self.part(self.sums.third, 2)
            + self.part(self.sums.fourth, 3);
        parts as u64
    }

    /// What the amount has of a sum that many scales above its mark, rounded down.
    fn part(&self, sum: u128, scales: u64) -> u128
        requires amount { self.now.amount ≤ LIM }
        requires mark { P_LEAST ≤ self.now.p }
        requires sum { sum ≤ SUM_MOST }
        requires scales { scales ≤ 3 }
        ensures part { result ≡ part_by self.now scales sum }
        ensures within { result * P_LEAST ≤ LIM * SUM_MOST }
    {
        let part = mul_div(u128::from(self.amount), sum, self.p);
        if scales == 0 {
            return part;
        }
        part / 10_u128.pow(9 * scales as u32)
    }

    /// What an offset or a sharing may cost the account now.
    pub(crate) fn cost(&self, words: &PoolWords) -> u64
        ensures { result ≡ cost_now self.now words.now }
    {
        if self.amount == 0 || words.epoch != self.epoch {
            return 0;
        }
        match words.scale.saturating_sub(self.scale) {
            0 => self.amount,
            1 => self.amount.div_ceil(STEP),
            2 => self.amount.div_ceil(STEP * STEP),
            // The amount has less than 27 digits.
            _ => 1,
        }
    }
}

impl Sums {
    fn none() -> Sums
        ensures { result ≡ no_sums }
    {
        Sums {
            first: 0,
            second: 0,
            third: 0,
            fourth: 0,
        }
    }
}
