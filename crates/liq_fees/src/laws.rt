//! What holds of the definitions that the contracts cite. The functions here do nothing: each is
//! the place where the facts of its contract are proved.

ghost use Rattle.std.specs.Prelude.{◌≡◌, ℕ, ◌+◌, ◌-◌, ◌*◌, ◌≤◌, ◌<◌, List};
ghost use Rattle.liq_num.specs.declared.power.TheConstants.{ONE};
ghost use Rattle.liq_types.specs.PlainLedger.{over_accounts};
ghost use Rattle.liq_fees.specs.Happened.{Happened, Asset, fees_of, unshared_of, AreCovered, AreOwnedBelow};
ghost use Rattle.liq_fees.specs.Exact.{IsWithinAllowance, allowance_of};
ghost use Rattle.liq_fees.specs.Gains.{gain_of};

/// Whatever happened, no account has gained more of an asset than its exact share, nor less by more
/// than its allowance.
pub fn gains_are_shares()
    ensures { (asset : Asset) → (account : ℕ) → (past : List Happened) →
        IsWithinAllowance asset account past (gain_of asset account past)
        (allowance_of account past) }
{}

/// Where nobody takes out more than it has, all gains together and what stayed unshared are at most
/// all fees.
pub fn the_fees_cover_all()
    ensures { (asset : Asset) → (n : ℕ) → (past : List Happened) → AreOwnedBelow n past
        → AreCovered past →
        over_accounts n (λ account. gain_of asset account past) + unshared_of asset past
        ≤ fees_of asset past }
{}
