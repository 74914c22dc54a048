//! The limit on what the offsets bring.

ghost use Rattle.std.specs.Prelude.{◌≡◌, ◌≤◌, ℕ, None, Some, IfErr, OnOk};
ghost use Rattle.liq_types.specs.PlainLedger.{offsets_coll};
ghost use Rattle.liq_text_audit.specs.Limits.{coll_above};

use crate::fault::ReviewFault;
use liq_types::PoolEvent;
use liq_types::amounts::LIM;

/// Refuses offsets whose collateral adds up to more than the limit, with the first sum that does.
pub(crate) fn limit_gains(events: &[PoolEvent]) -> Result<(), ReviewFault>
    ensures within { OnOk result (coll_above 0 events.now ≡ None) }
    ensures sum { OnOk result (offsets_coll events.now ≤ LIM) }
    ensures above { IfErr result (λ fault. (sum : ℕ) × (coll_above 0 events.now ≡ Some sum)
        × (fault ≡ ReviewFault.Limit sum)) }
{
    let mut sum: u128 = 0;
    for event in events {
        if let PoolEvent::Offset { coll, .. } = *event {
            sum += u128::from(coll);
            if sum > u128::from(LIM) {
                return Err(ReviewFault::Limit { number: sum });
            }
        }
    }
    Ok(())
}
