//! What holds of the definitions that the contracts cite. The functions here do nothing: each is
//! the place where the facts of its contract are proved.

ghost use Rattle.std.specs.Prelude.{◌≡◌, ℕ, ◌*◌, ◌≤◌, List};
ghost use Rattle.liq_types.specs.declared.events.PoolEvent.{PoolEvent};
ghost use Rattle.liq_types.specs.PlainLedger.{exact_share};
ghost use Rattle.liq_audit.specs.Enclosure.{enclosed, HasTotals};

/// The exact share of an account lies between its two whole numbers, for the balance and for the
/// gain, after all events whose offsets have something to share.
pub fn enclosures_enclose()
    ensures balance_lo { (account : ℕ) → (events : List PoolEvent) → HasTotals events
        → (enclosed account events).balance_lo * (exact_share account events).den
        ≤ (exact_share account events).bal }
    ensures balance_hi { (account : ℕ) → (events : List PoolEvent) → HasTotals events
        → (exact_share account events).bal ≤ (enclosed account events).balance_hi
        * (exact_share account events).den }
    ensures gain_lo { (account : ℕ) → (events : List PoolEvent) → HasTotals events
        → (enclosed account events).gain_lo * (exact_share account events).den
        ≤ (exact_share account events).gain }
    ensures gain_hi { (account : ℕ) → (events : List PoolEvent) → HasTotals events
        → (exact_share account events).gain ≤ (enclosed account events).gain_hi
        * (exact_share account events).den }
{}
