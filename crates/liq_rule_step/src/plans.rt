//! How the step reads what the calls plan. The functions here do nothing: each is the place where
//! the facts of its contract are proved.

ghost use Rattle.std.specs.Prelude.{◌≡◌, ℕ, is_some, pos, ◌∷◌, [], Some, None};
ghost use Rattle.liq_types.specs.declared.hints.HintWords.{HintWords};
ghost use Rattle.liq_types.specs.declared.requests.Call.TheVariants.{Open, Adjust, Close, Redeem};
ghost use Rattle.liq_types.specs.Rules.{first_refusal, outcome};
ghost use Rattle.liq_types.specs.State.{State, wallet_of};
ghost use Rattle.liq_types.specs.Tables.{at};
ghost use Rattle.liq_types.specs.Totals.{market_of, or_nothing};
ghost use Rattle.liq_types.specs.Ranked.{neighbours};
ghost use Rattle.liq_types.specs.Views.{View, key_seen, stake_seen};
ghost use Rattle.liq_troves.specs.StakeSums.{entire_of};
ghost use Rattle.liq_borrow.specs.Borrowing.{open_plan, adjust_plan, close_plan, gain_plan, opening_terms, adjusting_terms, closing_terms, gain_rules, gaining_terms};
ghost use Rattle.liq_liquidation.specs.Lowest.{lowest, lowest_plan, lowest_rules};
ghost use Rattle.liq_redemption.specs.Redemption.{redeem_plan, redeeming_terms, visited};
ghost use Rattle.liq_rule_step.specs.Rules.{rules};

/// A plan is refused as the step refuses its verb, and else has the terms by which the step changes
/// the state and replies.
pub fn plans_are_what_the_step_reads()
    ensures open { (s : State) → (account coll borrow bound : ℕ) → (hint : HintWords)
        → open_plan (market_of s) (wallet_of s account) (is_some (at s.troves account)) account coll
        borrow bound
        ≡ outcome (first_refusal (rules s (Open account coll borrow bound hint)))
        (opening_terms (market_of s) coll borrow) }
    ensures adjust { (s : State) → (account coll_in coll_out borrow repay bound : ℕ)
        → (hint : HintWords)
        → adjust_plan (market_of s) (wallet_of s account) (entire_of s account) account
        (record { coll_in = coll_in; coll_out = coll_out; borrow = borrow; repay = repay }) bound
        ≡ outcome (first_refusal (rules s (Adjust account coll_in coll_out borrow repay
        bound hint)))
        (adjusting_terms (market_of s) (or_nothing (entire_of s account))
        (record { coll_in = coll_in; coll_out = coll_out; borrow = borrow; repay = repay })) }
    ensures close { (s : State) → (account : ℕ) → close_plan (market_of s) (wallet_of s account)
        (entire_of s account) account
        ≡ outcome (first_refusal (rules s (Close account)))
        (closing_terms (or_nothing (entire_of s account))) }
    ensures gain { (s : State) → (account gain : ℕ)
        → gain_plan (market_of s) (entire_of s account) account gain
        ≡ outcome (first_refusal (gain_rules (market_of s) (entire_of s account) account gain))
        (gaining_terms (market_of s) (or_nothing (entire_of s account)) gain) }
    ensures lowest { (s : State) → (count : ℕ) → lowest_plan s count
        ≡ outcome (first_refusal (lowest_rules s)) (lowest s count) }
    ensures redeem { (s : State) → (account lusd bound : ℕ) → (hint : HintWords)
        → redeem_plan (market_of s) (wallet_of s account) (visited s) lusd bound
        ≡ outcome (first_refusal (rules s (Redeem account lusd bound hint))) (redeeming_terms
        (market_of s) (visited s) lusd) }
{}

/// Where a trove would stand, as whoever looks for its place before it opens reckons it: with the
/// fee at the least rate, and a stake of at least 1 also before any snapshot.
pub fn places_seen_example()
    ensures least { stake_seen (record {
      list = [];
      snap_stakes = 0;
      snap_coll = 0;
      sum_debt = 0;
    }) 0 ≡ 1 }
    ensures part { stake_seen (record { list = []; snap_stakes = 9; snap_coll = 10; sum_debt = 0 })
        1000 ≡ 900 }
    ensures key { key_seen (record { list = []; snap_stakes = 0; snap_coll = 0; sum_debt = 5 })
        10000000000 4000000000 ≡ pos 421999999999999995 }
{}

/// An entry's neighbours are the accounts between which it stands or would stand, its own account
/// aside; at an end there is none.
pub fn neighbours_example()
    ensures between { neighbours ((pos 10, 1) ∷ (pos 20, 2) ∷ (pos 30, 3) ∷ []) (pos 25, 9)
        ≡ (Some 2, Some 3) }
    ensures aside { neighbours ((pos 10, 1) ∷ (pos 20, 2) ∷ (pos 30, 3) ∷ []) (pos 20, 2)
        ≡ (Some 1, Some 3) }
    ensures front { neighbours ((pos 10, 1) ∷ (pos 20, 2) ∷ []) (pos 5, 9) ≡ (None, Some 1) }
    ensures alone { neighbours [] (pos 5, 9) ≡ (None, None) }
{}
