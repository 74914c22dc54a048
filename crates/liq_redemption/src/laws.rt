//! What a redemption asks and makes of a state's parts. The functions here do nothing: each is the
//! place where the facts of its contract are proved.

ghost use Rattle.std.specs.Prelude.{◌≡◌, ℕ, List, IsSome};
ghost use Rattle.liq_types.specs.declared.figures.Trove.{Trove};
ghost use Rattle.liq_types.specs.Ranked.{key_in};
ghost use Rattle.liq_types.specs.State.{State};
ghost use Rattle.liq_types.specs.Tables.{Table, at};
ghost use Rattle.liq_types.specs.WellFormed.{Ascends};
ghost use Rattle.liq_order.specs.Listed.{AreDistinct};
ghost use Rattle.liq_order.specs.Order.{Ranked, order_by};
ghost use Rattle.liq_redemption.specs.declared.cut.Cut.{Cut};
ghost use Rattle.liq_redemption.specs.Parts.{parts_with, cut_parts, redeemed_parts, redeemed_wallets};
ghost use Rattle.liq_redemption.specs.Redemption.{RedeemTerms, cut_down, redeemed_by};

/// What is made of the parts of a state, whatever its list, is what the redemption makes of the
/// state: of its sums, troves, pools and claims by a cut, and by all of it; and of its wallets.
pub fn redemptions_follow_states()
    ensures cut { (s : State) → (order : List Ranked) → (cut : Cut)
        → cut_parts (parts_with s order) cut ≡ parts_with (cut_down s cut)
        (cut_parts (parts_with s order) cut).order }
    ensures parts { (s : State) → (order : List Ranked) → (account : ℕ) → (terms : RedeemTerms)
        → redeemed_parts (parts_with s order) terms ≡ parts_with (redeemed_by s account terms)
        (redeemed_parts (parts_with s order) terms).order }
    ensures wallets { (s : State) → (account : ℕ) → (terms : RedeemTerms)
        → (redeemed_by s account terms).wallets ≡ redeemed_wallets s.wallets account terms }
{}

/// The order of the troves has each of them once, as plans and what is carried out ask of a list.
pub fn orders_have_each_trove_once()
    ensures once { (troves : Table Trove) → Ascends troves → AreDistinct (order_by troves) }
    ensures each { (troves : Table Trove) → (account : ℕ) → IsSome (at troves account)
        → IsSome (key_in (order_by troves) account) }
{}
