//! What holds of the definitions that the contracts cite. The functions here do nothing: each is
//! the place where the facts of its contract are proved.

ghost use Rattle.std.specs.Prelude.{◌≡◌, ℕ, ◌+◌, ◌*◌, ◌/◌, ◌^◌, ◌≤◌, List};
ghost use Rattle.liq_types.specs.PlainLedger.{AreOwnedBelow, over_accounts};
ghost use Rattle.liq_types.specs.State.{opening};
ghost use Rattle.liq_stability.specs.Lawful.{IsLawfulUpTo};
ghost use Rattle.liq_rewards.specs.Issued.{issued};
ghost use Rattle.liq_rewards.specs.Timed.{Timed, events_of, AreInOrder, shared_at, unshared_at};
ghost use Rattle.liq_rewards.specs.Earning.{reward_at};
ghost use Rattle.liq_rewards.specs.Exact.{IsWithinAllowance, allowance_at};

use crate::issuance::{UNITS_AT_FIRST, UNITS_MOST, YEAR, YEARS};
use liq_types::amounts::RISES_MOST;

/// What is issued goes by years: each minute of a year issues the same, half as much as one of the
/// year before, rounded down. It never falls, and comes to a most.
pub fn units_are_issued_by_years()
    ensures year { (year : ℕ) → (minutes : ℕ) → minutes ≤ YEAR →
        issued (year * YEAR + minutes) ≡ issued (year * YEAR)
        + minutes * (UNITS_AT_FIRST / 2 ^ year) }
    ensures rising { (first : ℕ) → (last : ℕ) → first ≤ last → issued first ≤ issued last }
    ensures most { (minutes : ℕ) → issued minutes ≤ UNITS_MOST }
    ensures all { (minutes : ℕ) → YEARS * YEAR ≤ minutes → issued minutes ≡ UNITS_MOST }
{}

/// After lawful events no account has earned more units than its exact share of those that were
/// shared, nor less by more than its allowance, at any minute, what is due then being shared too.
pub fn rewards_are_shares()
    ensures { (most : ℕ) → most ≤ 10 ^ (9 * RISES_MOST) →
        (past : List Timed) → IsLawfulUpTo most opening (events_of past) → (account : ℕ)
        → (minute : ℕ) →
        IsWithinAllowance account minute past (reward_at account minute past)
        (allowance_at account minute past) }
{}

/// Where minutes never fall, all units that were shared and all that were not are all that were
/// issued; and after lawful events the rewards of all accounts are together at most those that were
/// shared.
pub fn the_units_cover_all()
    ensures units { (past : List Timed) → (minute : ℕ) → AreInOrder minute past →
        shared_at minute past + unshared_at minute past ≡ issued minute }
    ensures rewards { (most : ℕ) → most ≤ 10 ^ (9 * RISES_MOST) →
        (past : List Timed) → IsLawfulUpTo most opening (events_of past) →
        (n : ℕ) → AreOwnedBelow n (events_of past) → (minute : ℕ) →
        over_accounts n (λ account. reward_at account minute past) ≤ shared_at minute past }
{}
