//! The account of all fees and stakes: a pot for each asset, a row for each staker. A change
//! settles its own row, a fee adds to both pots.

ghost use Rattle.std.specs.Prelude.{◌≡◌, ℕ, ◌+◌, ◌-◌, ◌<◌, ◌≤◌, ◌==◌, ◌↔◌, true, false, if◌then◌else◌};
ghost use Rattle.std.specs.Prelude.{[], ◌∷◌, List, Some, Err, OnOk, OnErr};
ghost use Rattle.liq_types.specs.PlainLedger.{over_accounts};
ghost use Rattle.liq_fees.specs.Happened.{Happened, Fee, of_coll, of_lusd, staked_of, stake_of, unshared_of, fees_of};
ghost use Rattle.liq_fees.specs.Happened.{changes_in, IsLawful};
ghost use Rattle.liq_fees.specs.Exact.{IsWithinAllowance};
ghost use Rattle.liq_fees.specs.Gains.{gain_of};
ghost use Rattle.liq_fees.specs.Kept.{IsKeptOf, staker_in, change_by, refusal_of, row_of};
ghost use Rattle.liq_fees.specs.declared.changes.StakeRefusal.{StakeRefusal};
ghost use Rattle.liq_fees.specs.declared.changes.ChangeFault.TheVariants.{No};

use crate::changes::{CHANGES_MOST, ChangeFault, FEES_MOST, STAKED_MOST, refusal};
use crate::gains::{Pot, StakeRow, Staker};
use liq_tables::Reserved;
use liq_types::amounts::{ACCOUNTS, LIM};
use std::alloc::Global;
use std::marker::Model;

/// Fees, stakes and gains, as all changes and fees so far make them. Contracts say what a value
/// stands for by `IsKeptOf`: a list of changes and fees, the latest first. Each value stands for a
/// list that can happen. Only [`Fees::change`] takes memory.
#[derive(Drop)]
pub struct Fees {
    /// All stakes, in units of the staked token.
    staked: u64,
    /// How many fees were shared.
    shares: u64,
    coll: Pot,
    lusd: Pot,
    stakers: Reserved<Staker>,
}

impl Model for Fees {
    ghost use Rattle.std.specs.Prelude.{List};
    ghost use Rattle.liq_fees.specs.Happened.{Happened};
    ghost use Rattle.liq_fees.specs.Kept.{Kept, IsKeptOf};

    ghost Value = { Kept };

    ghost view = { λ f. record {
      staked = f.staked;
      shares = f.shares;
      coll = f.coll;
      lusd = f.lusd;
      stakers = f.stakers.rows;
    } };

    ghost invariant = { λ f. ∥ ((past : List Happened) × IsKeptOf (record {
      staked = f.staked;
      shares = f.shares;
      coll = f.coll;
      lusd = f.lusd;
      stakers = f.stakers.rows;
    }) past) ∥₁ };
}

impl Fees {
    /// Nobody has a stake, and no fee has come.
    pub fn new(alloc: Global) -> Fees
        ensures { IsKeptOf result [] }
    {
        let pot = Pot {
            sum: 0,
            unshared: 0,
        };
        Fees {
            staked: 0,
            shares: 0,
            coll: pot,
            lusd: pot,
            stakers: Reserved::new(alloc),
        }
    }

    /// An account puts an amount in, or takes it out (units of the staked token). Refused where the
    /// account is not below [`ACCOUNTS`], the amount is 0, the account has less than it takes out,
    /// or all that is staked would pass [`STAKED_MOST`]. Refused or without memory, nothing
    /// changes. A value takes at most [`CHANGES_MOST`] changes.
    #[tactic(auto, using(crate::proofs::Keeping::refusal_is))]
    pub fn change(&mut self, account: u32, amount: u64, out: bool) -> Result<(), ChangeFault>
        requires few { ∥ ((past : List Happened) × IsKeptOf self.old past
            × (changes_in past < CHANGES_MOST)) ∥₁ }
        ensures changed { OnOk result ((past : List Happened) → IsKeptOf self.old past →
            changes_in past < CHANGES_MOST → IsKeptOf self.new (change_by account amount out
            ∷ past)) }
        ensures refused { (past : List Happened) → IsKeptOf self.old past
            → (refusal : StakeRefusal) →
            (result ≡ Err (No refusal))
            ↔ (refusal_of account amount out (staked_of past) (stake_of account past)
            ≡ Some refusal) }
        ensures err { OnErr result (self.new ≡ self.old) }
    {
        let staker = self.staker(account);
        if let Some(refusal) = refusal(account, amount, out, self.staked, staker.stake) {
            return Err(ChangeFault::No(refusal));
        }
        self.stakers.reserve(account)?;
        let (staked, stake) = moved(amount, out, self.staked, staker.stake);
        let staker = staker.after(stake, self.coll, self.lusd, self.shares);
        self.stakers.write(account, staker);
        self.staked = staked;
        Ok(())
    }

    /// A fee comes, of collateral (gwei) and LUSD (micro-LUSD), not both 0. It is shared by all who
    /// have a stake; where nobody has one it stays unshared. All fees together are at most [`LIM`]
    /// of either, and a value takes at most [`FEES_MOST`] of them. No memory is taken.
    pub fn share(&mut self, coll: u64, lusd: u64)
        requires some { 1 ≤ coll + lusd }
        requires lawful { ∥ ((past : List Happened) × IsKeptOf self.old past
            × IsLawful (Fee coll lusd ∷ past)) ∥₁ }
        ensures { (past : List Happened) → IsKeptOf self.old past
            → IsLawful (Fee coll lusd ∷ past) →
            IsKeptOf self.new (Fee coll lusd ∷ past) }
    {
        self.coll = self.coll.after(coll, self.staked);
        self.lusd = self.lusd.after(lusd, self.staked);
        self.shares = next_share_count(self.shares, self.staked);
    }

    /// What an account has staked and all that it has gained: of either asset never more than its
    /// exact share, and less by at most what the row allows.
    pub fn row(&self, account: u32) -> StakeRow
        ensures row { (past : List Happened) → IsKeptOf self.now past
            → result ≡ row_of account past }
        ensures coll { (past : List Happened) → IsKeptOf self.now past →
            IsWithinAllowance of_coll account past result.coll result.allow }
        ensures lusd { (past : List Happened) → IsKeptOf self.now past →
            IsWithinAllowance of_lusd account past result.lusd result.allow }
    {
        let staker = self.staker(account);
        staker.row(account, self.coll, self.lusd, self.shares)
    }

    /// The fees that came while nobody had a stake: collateral (gwei) and LUSD (micro-LUSD). With
    /// all gains they are at most all fees.
    pub fn unshared(&self) -> (u64, u64)
        ensures unshared { (past : List Happened) → IsKeptOf self.now past →
            result ≡ (unshared_of of_coll past, unshared_of of_lusd past) }
        ensures coll { (past : List Happened) → IsKeptOf self.now past →
            over_accounts ACCOUNTS (λ account. gain_of of_coll account past) + result.0
            ≤ fees_of of_coll past }
        ensures lusd { (past : List Happened) → IsKeptOf self.now past →
            over_accounts ACCOUNTS (λ account. gain_of of_lusd account past) + result.1
            ≤ fees_of of_lusd past }
    {
        (self.coll.unshared, self.lusd.unshared)
    }

    fn staker(&self, account: u32) -> Staker
        ensures { result ≡ staker_in self.now.stakers account }
    {
        match self.stakers.get(account) {
            Some(staker) => *staker,
            None => Staker::none(),
        }
    }
}

/// All stakes and an account's own, once it has put the amount in or taken it out.
fn moved(amount: u64, out: bool, staked: u64, stake: u64) -> (u64, u64)
    requires part { stake ≤ staked }
    requires enough { out ≡ true → amount ≤ stake }
    requires room { out ≡ false → staked + amount ≤ STAKED_MOST }
    ensures staked { result.0 ≡ (if out then staked - amount else staked + amount) }
    ensures stake { result.1 ≡ (if out then stake - amount else stake + amount) }
{
    if out {
        (staked - amount, stake - amount)
    } else {
        (staked + amount, stake + amount)
    }
}

/// How many fees were shared, with one more that is shared where anybody has a stake.
fn next_share_count(shares: u64, staked: u64) -> u64
    requires { shares ≤ FEES_MOST }
    ensures { result ≡ (if staked == 0 then shares else shares + 1) }
{
    if staked == 0 { shares } else { shares + 1 }
}
