//! Which accounts a call names.

ghost use Rattle.std.specs.Prelude.{◌≡◌};
ghost use Rattle.liq_core.specs.CallAccounts.{listed_accounts};
ghost use Rattle.liq_rule_step.specs.Step.{accounts};

use liq_types::Call;

/// The accounts that a call names, in the order of its words.
pub enum CallAccounts {
    Nobody,
    One(u32),
    Both(u32, u32),
}

/// Tells which accounts a call names.
pub fn accounts_of(call: &Call) -> CallAccounts
    ensures { listed_accounts result ≡ accounts call.now }
{
    match *call {
        Call::Price(_) | Call::Advance(_) | Call::Rotate => CallAccounts::Nobody,
        Call::Send(first, second, _) | Call::Liquidate(first, second) => {
            CallAccounts::Both(first, second)
        }
        Call::Fund(account, _)
        | Call::Take(account, _)
        | Call::Open(account, ..)
        | Call::Adjust(account, ..)
        | Call::Close(account)
        | Call::Provide(account, _)
        | Call::Withdraw(account, _)
        | Call::GainToTrove(account, _)
        | Call::LiquidateLowest(account, _)
        | Call::Redeem(account, ..)
        | Call::Claim(account) => CallAccounts::One(account),
    }
}
