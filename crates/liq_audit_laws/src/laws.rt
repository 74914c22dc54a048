//! What holds of the definitions that the contracts cite. The functions here do nothing: each is
//! the place where the facts of its contract are proved.

ghost use Rattle.std.specs.Prelude.{◌≡◌, ◌^◌, ◌<◌, ◌≤◌, List, length};
ghost use Rattle.liq_types.specs.declared.events.PoolEvent.{PoolEvent};
ghost use Rattle.liq_types.specs.PlainLedger.{offsets_coll};
ghost use Rattle.liq_types.specs.State.{State, opening};
ghost use Rattle.liq_stability.specs.Lawful.{IsLawful};
ghost use Rattle.liq_stability.specs.Own.{after_events};
ghost use Rattle.liq_stability.specs.Position.{balance_of};
ghost use Rattle.liq_stability.specs.Promise.{IsWithinAllowance, gained_of};
ghost use Rattle.liq_audit.specs.declared.rows.EngineRow.{EngineRow};
ghost use Rattle.liq_audit.specs.Auditable.{IsAuditable, row_of, IsWithinRow};

use liq_types::amounts::LIM;

/// Lawful events from the opening can be audited, where they are few and all of their offsets'
/// collateral is within the limit.
pub fn lawful_events_can_be_audited()
    ensures { (events : List PoolEvent) → IsLawful opening events → offsets_coll events ≤ LIM
        → length events < 2 ^ 40 → IsAuditable events }
{}

/// In an audit of lawful events every row holds of the balance and the gain that the pool gives its
/// account, and of those that any state gives it which keeps what is promised to the account.
pub fn every_row_is_within()
    ensures pool { (events : List PoolEvent) → IsLawful opening events → offsets_coll events ≤ LIM
        → length events < 2 ^ 40 → (engine : EngineRow) →
        engine.balance ≡ balance_of (after_events events) engine.account
        → engine.gain ≡ gained_of (after_events events) engine.account events →
        IsWithinRow (row_of events engine) }
    ensures promised { (events : List PoolEvent) → IsLawful opening events → offsets_coll events
        ≤ LIM → length events < 2 ^ 40 → (s : State) → (engine : EngineRow) →
        IsWithinAllowance s engine.account events → engine.balance ≡ balance_of s engine.account
        → engine.gain ≡ gained_of s engine.account events →
        IsWithinRow (row_of events engine) }
{}
