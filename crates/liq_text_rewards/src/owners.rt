//! The accounts that events are of, each once and ascending.

ghost use Rattle.std.specs.Prelude.{◌≡◌, IfOk};
ghost use Rattle.liq_audit.specs.Auditable.{owners_of};
ghost use Rattle.liq_text_rewards.specs.Telling.{events_in};

use liq_types::{NoMemory, PoolEvent};
use std::alloc::Global;
use std::collections::BTreeSet;

/// The accounts with an own operation, ascending.
pub(crate) fn owners(alloc: Global, notes: &[(u64, PoolEvent)]) -> Result<Vec<u32>, NoMemory>
    ensures { IfOk result (λ owners. owners.items ≡ owners_of (events_in notes.now)) }
{
    let mut found = BTreeSet::new(alloc);
    for (_, event) in notes {
        if let PoolEvent::Own { account, .. } = *event {
            let Ok(_) = found.insert(account) else {
                return Err(NoMemory);
            };
        }
    }
    listed(alloc, &found)
}

/// The same accounts, in a list.
fn listed(alloc: Global, accounts: &BTreeSet<u32>) -> Result<Vec<u32>, NoMemory>
    ensures { IfOk result (λ list. list.items ≡ accounts.now.keys) }
{
    let mut list = Vec::with_capacity(alloc, accounts.len())?;
    for account in accounts {
        let Ok(()) = list.push(*account) else {
            return Err(NoMemory);
        };
    }
    Ok(list)
}
