//! What an account may change of its stake.

ghost use Rattle.std.specs.Prelude.{◌≡◌, ◌+◌, ◌-◌, MatchOption, if◌then◌else◌};
ghost use Rattle.liq_fees.specs.Kept.{refusal_of};

use liq_types::NoMemory;
use liq_types::amounts::ACCOUNTS;

/// The most that all accounts together may have staked, in units of the staked token.
pub const STAKED_MOST: u64 = 1_000_000_000_000_000_000;

/// The most changes that one value takes: 2^40.
pub const CHANGES_MOST: u64 = 1_099_511_627_776;

/// The most fees that one value takes: 2^40.
pub const FEES_MOST: u64 = 1_099_511_627_776;

/// Why a change is refused. Its fields are printed in their order behind its code.
#[derive(Clone, Copy, PartialEq, Eq)]
pub enum StakeRefusal {
    /// 13: the account is not below [`ACCOUNTS`].
    AccountRange { value: u32 },
    /// 11: the amount is 0.
    AmountZero,
    /// 12: all that is staked would pass [`STAKED_MOST`].
    AmountLimit { sum: u128, limit: u64 },
    /// 43: the account takes out more than it has.
    ShortStake { need: u64, have: u64 },
}

/// Why an account's stake is not changed. Nothing has changed.
#[derive(Clone, Copy, PartialEq, Eq)]
pub enum ChangeFault {
    /// It is refused.
    No(StakeRefusal),
    /// There is no memory for the account's row.
    NoMemory,
}

impl From<NoMemory> for ChangeFault {
    ghost use Rattle.std.specs.Prelude.{◌≡◌};
    ghost use Rattle.liq_fees.specs.declared.changes.ChangeFault.{ChangeFault};

    ghost from_gives = { λ _ fault. fault ≡ ChangeFault.NoMemory };

    fn from(_: NoMemory) -> ChangeFault {
        ChangeFault::NoMemory
    }
}

/// Why a change is refused, if it is, beside all that is staked and the account's own stake. The
/// first reason in this order is told: the account's number, an amount of nothing, what there is
/// too much or too little of.
pub(crate) fn refusal(
    account: u32,
    amount: u64,
    out: bool,
    staked: u64,
    stake: u64,
) -> Option<StakeRefusal>
    ensures { result ≡ refusal_of account amount out staked stake }
{
    if account >= ACCOUNTS {
        return Some(StakeRefusal::AccountRange { value: account });
    }
    if amount == 0 {
        return Some(StakeRefusal::AmountZero);
    }
    if out {
        if amount > stake {
            return Some(StakeRefusal::ShortStake {
                need: amount,
                have: stake,
            });
        }
        return None;
    }
    let sum = u128::from(staked) + u128::from(amount);
    if sum > u128::from(STAKED_MOST) {
        return Some(StakeRefusal::AmountLimit {
            sum,
            limit: STAKED_MOST,
        });
    }
    None
}
