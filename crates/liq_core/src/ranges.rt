//! The accounts that a call names: all are in range, or the first that is not is refused.

ghost use Rattle.std.specs.Prelude.{◌≡◌, [], ◌∷◌, map};
ghost use Rattle.liq_ledger.specs.Refusals.{ruled};
ghost use Rattle.liq_rule_step.specs.Step.{accounts, in_range};

use crate::call_accounts::{CallAccounts, accounts_of};
use liq_types::amounts::ACCOUNTS;
use liq_types::{Call, Refusal};

/// Rules on all accounts of a call, in the order of its words.
pub(crate) fn check_accounts(call: &Call) -> Result<(), Refusal>
    ensures { result ≡ ruled (map in_range (accounts call.now)) }
{
    match accounts_of(call) {
        CallAccounts::Nobody => Ok(()),
        CallAccounts::One(account) => check_account(account),
        CallAccounts::Both(first, second) => check_both(first, second),
    }
}

fn check_account(account: u32) -> Result<(), Refusal>
    ensures { result ≡ ruled (in_range account ∷ []) }
{
    if account >= ACCOUNTS {
        return Err(Refusal::AccountRange { value: account });
    }
    Ok(())
}

fn check_both(first: u32, second: u32) -> Result<(), Refusal>
    ensures { result ≡ ruled (in_range first ∷ in_range second ∷ []) }
{
    if first >= ACCOUNTS {
        return Err(Refusal::AccountRange { value: first });
    }
    if second >= ACCOUNTS {
        return Err(Refusal::AccountRange { value: second });
    }
    Ok(())
}
