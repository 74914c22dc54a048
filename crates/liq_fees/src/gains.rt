//! Sums, gains and allowances, in whole numbers.

ghost use Rattle.std.specs.Prelude.{◌≡◌, ◌+◌, ◌-◌, ◌*◌, ◌^◌, ◌<◌, ◌≤◌, ◌==◌, if◌then◌else◌};
ghost use Rattle.liq_num.specs.Quotient.{floor_of, ceiling_of};
ghost use Rattle.liq_num.specs.declared.power.TheConstants.{ONE};
ghost use Rattle.liq_fees.specs.Gains.{gained};
ghost use Rattle.liq_fees.specs.Kept.{no_staker, weight_at, pot_after, gain_at, staker_after, row_by};
ghost use Rattle.liq_fees.specs.Kept.{CanGain, CanBeRead};

use crate::changes::{CHANGES_MOST, FEES_MOST};
use liq_num::{ONE, mul_div, mul_div_up};
use liq_tables::Row;
use liq_types::amounts::LIM;

/// What came of one asset, collateral (gwei) or LUSD (micro-LUSD).
#[derive(Clone, Copy)]
pub struct Pot {
    /// What a unit of stake was given, in 10^18ths.
    pub sum: u128,
    /// What came while nobody had a stake.
    pub unshared: u64,
}

impl Pot {
    /// The pot after one more fee.
    pub(crate) fn after(self, fee: u64, staked: u64) -> Pot
        requires sum { self.sum ≤ LIM * ONE }
        requires unshared { self.unshared + fee ≤ LIM }
        ensures { result ≡ pot_after self fee staked }
    {
        if staked == 0 {
            return Pot {
                unshared: self.unshared + fee,
                ..self
            };
        }
        Pot {
            sum: self.sum + rise(fee, staked),
            ..self
        }
    }
}

/// What a fee gives to each unit of stake, in 10^18ths, rounded down.
fn rise(fee: u64, staked: u64) -> u128
    requires { 1 ≤ staked }
    ensures quotient { result ≡ floor_of fee ONE staked }
    ensures within { result ≤ fee * ONE }
{
    mul_div(u128::from(fee), u128::from(ONE), u128::from(staked))
}

/// What an account had gained of one asset at its last change, and the sum of then.
#[derive(Clone, Copy)]
pub struct Gain {
    /// The sum, in 10^18ths.
    pub mark: u128,
    /// What was gained, in whole units.
    pub got: u64,
}

impl Gain {
    /// All that an account has gained with this stake, when the sum has come to `sum`.
    fn by(self, stake: u64, sum: u128) -> u64
        requires { CanGain stake self sum }
        ensures { result ≡ gained self.got stake (sum - self.mark) }
    {
        let more = mul_div(u128::from(stake), sum - self.mark, u128::from(ONE));
        self.got + more as u64
    }

    /// The gain of this stake, with all that it gained up to `sum`.
    fn at(self, stake: u64, sum: u128) -> Gain
        requires { CanGain stake self sum }
        ensures { result ≡ gain_at stake self sum }
    {
        Gain {
            mark: sum,
            got: self.by(stake, sum),
        }
    }
}

/// What is kept of an account, as of its last change.
#[derive(Clone, Copy)]
pub struct Staker {
    /// In units of the staked token.
    pub stake: u64,
    /// Gains of collateral, in gwei.
    pub coll: Gain,
    /// Gains of LUSD, in micro-LUSD.
    pub lusd: Gain,
    /// The stake, added up over the fees that were shared.
    pub weight: u128,
    /// How many fees were shared.
    pub shares: u64,
    /// How many changes the account has made.
    pub changes: u64,
}

impl Staker {
    /// An account without a change.
    pub(crate) fn none() -> Staker
        ensures { result ≡ no_staker }
    {
        let gain = Gain { mark: 0, got: 0 };
        Staker {
            stake: 0,
            coll: gain,
            lusd: gain,
            weight: 0,
            shares: 0,
            changes: 0,
        }
    }

    /// After a change that leaves it this stake: what it gained with the old one is settled first.
    pub(crate) fn after(self, stake: u64, coll: Pot, lusd: Pot, shares: u64) -> Staker
        requires { CanBeRead self coll lusd shares }
        ensures { result ≡ staker_after self stake coll lusd shares }
    {
        Staker {
            stake,
            coll: self.coll.at(self.stake, coll.sum),
            lusd: self.lusd.at(self.stake, lusd.sum),
            weight: self.weight_at(shares),
            shares,
            changes: self.changes + 1,
        }
    }

    /// What is told of it, when these fees have come and so many were shared.
    pub(crate) fn row(self, account: u32, coll: Pot, lusd: Pot, shares: u64) -> StakeRow
        requires { CanBeRead self coll lusd shares }
        ensures { result ≡ row_by account self coll lusd shares }
    {
        StakeRow {
            account,
            stake: self.stake,
            coll: self.coll.by(self.stake, coll.sum),
            lusd: self.lusd.by(self.stake, lusd.sum),
            allow: allowance(self.weight_at(shares), self.changes),
        }
    }

    /// The account's weight once so many fees were shared: its stake, added up over them.
    fn weight_at(self, shares: u64) -> u128
        requires later { self.shares ≤ shares }
        requires fits { weight_at self shares ≤ FEES_MOST * ONE }
        ensures { result ≡ weight_at self shares }
    {
        self.weight + u128::from(self.stake) * u128::from(shares - self.shares)
    }
}

/// A row is used from the account's first change on.
impl Row for Staker {
    ghost use Rattle.std.specs.Prelude.{refl};
    ghost use Rattle.liq_fees.specs.Kept.{no_staker, is_used_staker};

    ghost used = { is_used_staker };

    ghost nothing = { no_staker };

    fn is_used(&self) -> bool {
        self.changes != 0
    }

    fn nothing() -> Staker {
        Staker::none()
    }

    ghost is_unused = { refl };
}

/// What is told of an account.
#[derive(Clone, Copy, PartialEq, Eq)]
pub struct StakeRow {
    pub account: u32,
    /// In units of the staked token.
    pub stake: u64,
    /// All collateral that it has gained, in gwei.
    pub coll: u64,
    /// All LUSD that it has gained, in micro-LUSD.
    pub lusd: u64,
    /// By how much either gain may fall short of the exact share.
    pub allow: u64,
}

/// By how much a gain may fall short: one for each 10^18 of weight, rounded up, and one for each
/// change.
fn allowance(weight: u128, changes: u64) -> u64
    requires weight { weight ≤ FEES_MOST * ONE }
    requires changes { changes ≤ CHANGES_MOST }
    ensures { result ≡ ceiling_of weight 1 ONE + changes }
{
    mul_div_up(weight, 1, u128::from(ONE)) as u64 + changes
}
