//! The base rate as it is kept, how it falls and rises, and the fees by it.

ghost use Rattle.std.specs.Prelude.{◌≡◌, ◌≤◌, ◌^◌};
ghost use Rattle.liq_num.specs.Quotient.{floor_of};
ghost use Rattle.liq_rate.specs.Rate as rules;

use liq_num::{dec_pow, mul_div};
use liq_types::amounts::{DECAY, FLOOR_RATE, MAX_BORROW_RATE, ONE};

/// The base rate and the minute as of which it holds.
#[derive(Clone, Copy)]
pub struct Rate {
    /// Over 10^18, at most the whole.
    pub base: u64,
    /// The minute of the last fee.
    pub minute: u64,
}

impl Rate {
    /// What is left of the base rate at a minute that is not before its own.
    pub fn decayed(&self, now: u64) -> u64
        requires base { self.now.base ≤ ONE }
        requires later { self.now.minute ≤ now }
        ensures left { result ≡ rules.decayed self.now.base self.now.minute now }
        ensures within { result ≤ self.now.base }
    {
        // Mostly there is nothing to decay, or no time for it.
        if self.base == 0 || now == self.minute {
            return self.base;
        }
        part_of(self.base, dec_pow(DECAY, now - self.minute))
    }

    /// The rate after a borrowing: what is left of it, as of now.
    pub fn on_borrow(&self, now: u64) -> Rate
        requires base { self.now.base ≤ ONE }
        requires later { self.now.minute ≤ now }
        ensures rate { result ≡ record {
          base = rules.decayed self.now.base self.now.minute now;
          minute = now;
        } }
        ensures within { result.base ≤ self.now.base }
    {
        Rate {
            base: self.decayed(now),
            minute: now,
        }
    }

    /// The rate after a redemption (micro-LUSD) out of a supply (micro-LUSD): what is left of it
    /// and half of the part of the supply that is redeemed, at most the whole.
    pub fn on_redeem(&self, now: u64, redeemed: u64, supply: u64) -> Rate
        requires base { self.now.base ≤ ONE }
        requires later { self.now.minute ≤ now }
        requires some { 1 ≤ redeemed }
        requires part { redeemed ≤ supply }
        ensures rate { result
            ≡ record {
              base = rules.risen (rules.decayed self.now.base self.now.minute now) redeemed
                  supply;
              minute = now;
            } }
        ensures within { result.base ≤ ONE }
    {
        let part = share_of(redeemed, supply);
        Rate {
            base: (self.decayed(now) + part / 2).min(ONE),
            minute: now,
        }
    }
}

/// The fee of a borrowing (micro-LUSD), where so much is left of the base rate.
pub fn borrow_fee(decayed: u64, amount: u64) -> u64
    requires { decayed ≤ ONE }
    ensures fee { result ≡ rules.borrow_fee decayed amount }
    ensures within { result ≤ amount }
{
    part_of(amount, (decayed + FLOOR_RATE).min(MAX_BORROW_RATE))
}

/// The fee of a redemption that draws so much collateral (gwei), where the base rate after it is
/// this.
pub fn redeem_fee(base: u64, drawn: u64) -> u64
    requires { base ≤ ONE }
    ensures fee { result ≡ rules.redeem_fee base drawn }
    ensures within { result ≤ drawn }
{
    part_of(drawn, (base + FLOOR_RATE).min(ONE))
}

/// So many 10^18ths of an amount, rounded down.
fn part_of(amount: u64, rate: u64) -> u64
    requires { rate ≤ ONE }
    ensures part { result ≡ floor_of rate amount ONE }
    ensures turned { result ≡ floor_of amount rate ONE }
    ensures within { result ≤ amount }
{
    mul_div(u128::from(rate), u128::from(amount), u128::from(ONE)) as u64
}

/// Which part of the whole an amount is, over 10^18, rounded down.
fn share_of(amount: u64, whole: u64) -> u64
    requires some { 1 ≤ whole }
    requires part { amount ≤ whole }
    ensures share { result ≡ floor_of amount ONE whole }
    ensures within { result ≤ ONE }
{
    mul_div(u128::from(amount), u128::from(ONE), u128::from(whole)) as u64
}
