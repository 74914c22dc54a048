//! What is known of a plan that is allowed. The function here does nothing: it is the place where
//! the facts of its contract are proved.

ghost use Rattle.std.specs.Prelude.{◌≡◌, ℕ, Bool, None, Option};
ghost use Rattle.liq_types.specs.declared.figures.Market.{Market};
ghost use Rattle.liq_types.specs.declared.figures.Wallet.{Wallet};
ghost use Rattle.liq_types.specs.Rules.{first_refusal};
ghost use Rattle.liq_borrow.specs.declared.change.Change.{Change};
ghost use Rattle.liq_borrow.specs.Allowed.{OpenPasses, ChangePasses, ClosePasses, GainPasses};
ghost use Rattle.liq_borrow.specs.Borrowing.{open_rules, adjust_rules, close_rules, gain_rules};

/// What every rule of an opening, a change, a closing and a moved gain tells, by its name, where
/// none refuses.
pub fn allowed_plans_have_their_facts()
    ensures open { (m : Market) → (wallet : Wallet) → (exists : Bool)
        → (account coll borrow bound : ℕ)
        → first_refusal (open_rules m wallet exists account coll borrow bound) ≡ None
        → OpenPasses m wallet exists coll borrow bound }
    ensures change { (m : Market) → (wallet : Wallet) → (entire : Option (ℕ × ℕ))
        → (change : Change)
        → (account bound : ℕ)
        → first_refusal (adjust_rules m wallet entire account change bound) ≡ None
        → ChangePasses m wallet entire change bound }
    ensures close { (m : Market) → (wallet : Wallet) → (entire : Option (ℕ × ℕ)) → (account : ℕ)
        → first_refusal (close_rules m wallet entire account) ≡ None → ClosePasses m wallet entire }
    ensures gain { (m : Market) → (entire : Option (ℕ × ℕ)) → (account gain : ℕ)
        → first_refusal (gain_rules m entire account gain) ≡ None → GainPasses m entire gain }
{}
