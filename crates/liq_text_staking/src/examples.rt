//! Worked lists, with values that were worked out apart from the definitions. The functions here do
//! nothing.

ghost use Rattle.std.specs.Prelude.{◌≡◌, [], ◌∷◌, true, false, map, codes};
ghost use Rattle.liq_fees.specs.Happened.{of_coll, of_lusd, unshared_of};
ghost use Rattle.liq_fees.specs.Kept.{row_of};
ghost use Rattle.liq_text_staking.specs.Asked.{answered_all, shared_up_to};

/// Two records, of which the second pays 20 LUSD, and four lines: two that stake before it, one
/// that takes out more than there is after it, and one that comes too late.
pub fn two_stakers_share_a_fee()
    ensures replies { (answered_all ((0, 0) ∷ (0, 20000000) ∷ []) (
        record { at = 0; account = 1; amount = 3; out = false }
        ∷ record { at = 0; account = 2; amount = 4; out = false }
        ∷ record { at = 2; account = 1; amount = 4; out = true }
        ∷ record { at = 1; account = 2; amount = 1; out = false } ∷ [])).replies
        ≡ codes "ok" ∷ codes "ok" ∷ codes "no 43 4 3" ∷ codes "no 44 1 2 2" ∷ [] }
    ensures rows { map (λ account. row_of account (answered_all ((0, 0) ∷ (0, 20000000) ∷ []) (
        record { at = 0; account = 1; amount = 3; out = false }
        ∷ record { at = 0; account = 2; amount = 4; out = false }
        ∷ record { at = 2; account = 1; amount = 4; out = true } ∷ [])).past) (1 ∷ 2 ∷ [])
        ≡ record { account = 1; stake = 3; coll = 0; lusd = 8571428; allow = 2 }
        ∷ record { account = 2; stake = 4; coll = 0; lusd = 11428571; allow = 2 } ∷ [] }
{}

/// Where nobody has a stake, the fee stays unshared.
pub fn a_fee_stays_unshared()
    ensures { unshared_of of_lusd (shared_up_to ((0, 0) ∷ (0, 20000000) ∷ []) [] 0 2) ≡ 20000000 }
{}
