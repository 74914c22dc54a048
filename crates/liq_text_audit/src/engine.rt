//! What the protocol gives the depositors.

ghost use Rattle.std.specs.Prelude.{◌≡◌, ◌<◌, ◌+◌, ◌^◌, ℕ, map, IfOk};
ghost use Rattle.std.specs.List.{AllByRecursion};
ghost use Rattle.std.specs.Map.{keys_of};
ghost use Rattle.liq_types.specs.State.{State};
ghost use Rattle.liq_types.specs.declared.amounts.TheConstants.{ACCOUNTS};
ghost use Rattle.liq_stability.specs.Position.{balance_of, gain_of};
ghost use Rattle.liq_audit.specs.Auditable.{accounts_of};
ghost use Rattle.liq_core.specs.Core.{StandsFor};
ghost use Rattle.liq_text_audit.specs.Engine.{paid_row, Pays};

use liq_audit::EngineRow;
use liq_core::Protocol;
use liq_types::{Info, NoMemory, Query, Reply};
use std::alloc::Global;
use std::collections::BTreeMap;

/// What the protocol gives each of the accounts that were paid so much.
pub(crate) fn engine_rows(
    alloc: Global,
    protocol: &Protocol,
    paid: &BTreeMap<u32, u64>,
) -> Result<Vec<EngineRow>, NoMemory>
    requires { AllByRecursion (Pays protocol.now) paid.now.entries }
    ensures rows { IfOk result (λ rows. (s : State) → StandsFor protocol.now s
        → rows.items ≡ map (paid_row s) paid.now.entries) }
    ensures accounts { IfOk result (λ rows. accounts_of rows.items ≡ keys_of paid.now.entries) }
{
    let mut rows = Vec::with_capacity(alloc, paid.len())?;
    for (account, gains) in paid {
        let Ok(()) = rows.push(engine_row(protocol, *account, *gains)) else {
            return Err(NoMemory);
        };
    }
    Ok(rows)
}

/// What the protocol gives an account that was paid so much.
fn engine_row(protocol: &Protocol, account: u32, paid: u64) -> EngineRow
    requires { Pays protocol.now (account, paid) }
    ensures row { (s : State) → StandsFor protocol.now s → result ≡ paid_row s (account, paid) }
    ensures account { result.account ≡ account }
{
    let (balance, gain) = position(protocol, account);
    EngineRow {
        account,
        balance,
        gain: gain + paid,
    }
}

/// An account's balance, and the gain that it may take.
fn position(protocol: &Protocol, account: u32) -> (u64, u64)
    requires { account < ACCOUNTS }
    ensures { (s : State) → StandsFor protocol.now s
        → result ≡ (balance_of s account, gain_of s account) }
{
    match protocol.query(&Query::Deposit(account)) {
        Reply::Told(Info::Deposit { balance, gain }) => (balance, gain),
        _ => (0, 0),
    }
}
