//! The gains that were paid.

ghost use Rattle.std.specs.Prelude.{◌≡◌, ◌<◌, ◌^◌, ℕ, IfOk};
ghost use Rattle.liq_types.specs.PlainLedger.{gains_paid_to};
ghost use Rattle.liq_text_audit.specs.Paid.{paid_table};

use liq_types::{NoMemory, PoolEvent};
use std::alloc::Global;
use std::collections::BTreeMap;

/// For each account with an own operation, the gains that it was paid, in gwei.
pub(crate) fn gains_paid(
    alloc: Global,
    events: &[PoolEvent],
) -> Result<BTreeMap<u32, u64>, NoMemory>
    requires { (account : ℕ) → gains_paid_to account events.now < 2 ^ 64 }
    ensures { IfOk result (λ paid. paid.entries ≡ paid_table events.now) }
{
    let mut paid = BTreeMap::new(alloc);
    for event in events {
        if let PoolEvent::Own { account, gain, .. } = *event {
            let had = paid.get(&account).copied().unwrap_or(0);
            let Ok(_) = paid.insert(account, had + gain) else {
                return Err(NoMemory);
            };
        }
    }
    Ok(paid)
}
