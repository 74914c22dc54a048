//! The audit of all accounts: a row for each that has an operation of its own at the pool.

ghost use Rattle.std.specs.Prelude.{◌≡◌, ℕ, ◌≤◌, ◌<◌, ◌^◌, length, map, All, IsOk, IfOk, OnOk, IfErr, Some, None, Err};
ghost use Rattle.liq_audit.specs.Auditable.{IsAuditable, accounts_of, owners_of, offsets_in, limit_passed, row_of, EnclosesShare};

use crate::enclosure::Enclosure;
use crate::rows::{ACCOUNTS_MOST, AuditFault, EngineRow, OFFSETS_MOST, Row};
use crate::watcher::Watcher;
use liq_types::PoolEvent;
use std::alloc::Global;

/// One row for each account with an own operation, ascending: its exact share between whole
/// numbers, what the protocol gives it, and by how much that may fall short. `engine` has these
/// accounts, each once and ascending.
///
/// `AuditLimit` comes exactly where there are more than [`OFFSETS_MOST`] offsets or, tested second,
/// more than [`ACCOUNTS_MOST`] accounts.
pub fn audit(
    alloc: Global,
    events: &[PoolEvent],
    engine: &[EngineRow],
) -> Result<Vec<Row>, AuditFault>
    requires auditable { IsAuditable events.now }
    requires accounts { accounts_of engine.now ≡ owners_of events.now }
    ensures rows { IfOk result (λ rows. rows.items ≡ map (row_of events.now) engine.now) }
    ensures shares { IfOk result (λ rows. All (EnclosesShare events.now) rows.items) }
    ensures limit { (passed : ℕ × ℕ) → limit_passed events.now ≡ Some passed
        → result ≡ Err (AuditFault.AuditLimit passed.0 passed.1) }
    ensures no_limit { limit_passed events.now ≡ None
        → IfErr result (λ fault. fault ≡ AuditFault.NoMemory) }
{
    within_limits(events, engine)?;
    let Ok(mut rows) = Vec::with_capacity(alloc, engine.len()) else {
        return Err(AuditFault::NoMemory);
    };
    for account in engine {
        if rows.push(audited(events, account)).is_err() {
            return Err(AuditFault::NoMemory);
        }
    }
    Ok(rows)
}

fn within_limits(events: &[PoolEvent], engine: &[EngineRow]) -> Result<(), AuditFault>
    requires few { length events.now < 2 ^ 40 }
    requires accounts { accounts_of engine.now ≡ owners_of events.now }
    ensures limit { (passed : ℕ × ℕ) → limit_passed events.now ≡ Some passed
        → result ≡ Err (AuditFault.AuditLimit passed.0 passed.1) }
    ensures no_limit { limit_passed events.now ≡ None → IsOk result }
    ensures offsets { OnOk result (offsets_in events.now ≤ OFFSETS_MOST) }
{
    at_most(count_offsets(events), OFFSETS_MOST)?;
    at_most(engine.len() as u64, ACCOUNTS_MOST)
}

fn at_most(count: u64, limit: u64) -> Result<(), AuditFault>
    ensures passed { limit < count → result ≡ Err (AuditFault.AuditLimit count limit) }
    ensures within { count ≤ limit → IsOk result }
    ensures ok { OnOk result (count ≤ limit) }
{
    if count > limit {
        return Err(AuditFault::AuditLimit { count, limit });
    }
    Ok(())
}

fn count_offsets(events: &[PoolEvent]) -> u64
    requires { length events.now < 2 ^ 40 }
    ensures { result ≡ offsets_in events.now }
{
    let mut count = 0;
    for event in events {
        if matches!(event, PoolEvent::Offset { .. }) {
            count += 1;
        }
    }
    count
}

/// The row of one account.
fn audited(events: &[PoolEvent], engine: &EngineRow) -> Row
    requires auditable { IsAuditable events.now }
    requires offsets { offsets_in events.now ≤ OFFSETS_MOST }
    ensures { result ≡ row_of events.now engine.now }
{
    let account = engine.account;
    let mut enclosure = Enclosure::nothing();
    let mut watcher = Watcher::new();
    for event in events {
        enclosure = enclosure.after(account, event);
        watcher = watcher.after(account, event);
    }
    Row {
        account,
        balance_lo: enclosure.balance_lo,
        balance_hi: enclosure.balance_hi,
        balance: engine.balance,
        balance_allow: watcher.balance_allowance(),
        gain_lo: enclosure.gain_lo,
        gain_hi: enclosure.gain_hi,
        gain: engine.gain,
        gain_allow: watcher.gain_allowance(),
    }
}
