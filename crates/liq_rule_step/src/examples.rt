//! Worked examples: what the rules give, run by hand. The functions here do nothing; each is the
//! place where the facts of its contract are proved.

ghost use Rattle.std.specs.Prelude.{◌≡◌, [], ◌∷◌, pos, take};
ghost use Rattle.liq_types.specs.declared.events.ListChange.TheVariants.{Put, Gone, Words};
ghost use Rattle.liq_types.specs.declared.requests.Call.TheVariants.{Open, Adjust, Close, Liquidate};
ghost use Rattle.liq_types.specs.declared.amounts.TheConstants.{LIM_OF_VERSION_1};
ghost use Rattle.liq_types.specs.State.{opening, opening_with};
ghost use Rattle.liq_stability.specs.Lawful.{IsLawful};
ghost use Rattle.liq_rule_step.specs.BorrowingExamples.{adjusting_and_closing, adjusting_and_closing_replies, adjusting_to_limits, adjusting_to_limits_replies, totals_too_low, totals_too_low_replies, ratio_falls, ratio_falls_replies};
ghost use Rattle.liq_rule_step.specs.Events.{events};
ghost use Rattle.liq_rule_step.specs.LimitExamples.{with_full_journal, full_journal, full_journal_replies, in_last_generation, last_generation, last_generation_replies, of_version_1, of_version_1_replies, with_greatest_sum, greatest_sum, greatest_sum_replies};
ghost use Rattle.liq_rule_step.specs.RedemptionExamples.{nothing_to_redeem, nothing_to_redeem_replies, redeemed_and_struck, redeemed_and_struck_replies};
ghost use Rattle.liq_rule_step.specs.Dust.{dust};
ghost use Rattle.liq_rule_step.specs.Rules.{call_changes};
ghost use Rattle.liq_rule_step.specs.Step.{run, accepted};
ghost use Rattle.liq_rule_step.specs.Verbs.{no_hint};
ghost use Rattle.liq_rule_step.specs.Examples.{a_trove_opens, a_trove_opens_replies, too_little_debt, too_little_debt_replies, both_ratios_exact, both_ratios_exact_replies, a_gwei_too_little, a_gwei_too_little_replies, pool_and_others, pool_and_others_replies, in_and_out, in_and_out_replies, trove_under, trove_under_replies, at_the_whole, at_the_whole_replies, pool_too_small, pool_too_small_replies, capped_lowest, capped_lowest_replies, capped_single, capped_single_replies, redemption, redemption_replies, redemption_stops, redemption_stops_replies, numbers, numbers_replies, last_trove, last_trove_replies, limits, limits_replies, bringing_in, bringing_in_replies, nothing_yet, nothing_yet_replies, rotation, rotation_replies, taking_out, taking_out_replies, time_and_bounds, time_and_bounds_replies, pool_and_others_events};

/// The first trove, with its fee and its reserve.
pub fn a_trove_opens_example()
    ensures { (run opening a_trove_opens).1 ≡ a_trove_opens_replies }
{}

/// A trove may not owe less than the least.
pub fn too_little_debt_example()
    ensures { (run opening too_little_debt).1 ≡ too_little_debt_replies }
{}

/// A trove exactly at the least ratio, and totals exactly at the critical one.
pub fn both_ratios_exact_example()
    ensures { (run opening both_ratios_exact).1 ≡ both_ratios_exact_replies }
{}

/// With one gwei less it is refused.
pub fn a_gwei_too_little_example()
    ensures { (run opening a_gwei_too_little).1 ≡ a_gwei_too_little_replies }
{}

/// A trove of which the Stability Pool takes over a part, and the other trove the rest.
pub fn pool_and_others_example()
    ensures { (run opening pool_and_others).1 ≡ pool_and_others_replies }
{}

/// LUSD into the Stability Pool and out again.
pub fn in_and_out_example()
    ensures { (run opening in_and_out).1 ≡ in_and_out_replies }
{}

/// Nothing leaves the Stability Pool while a trove is below the least ratio.
pub fn trove_under_example()
    ensures { (run opening trove_under).1 ≡ trove_under_replies }
{}

/// In Recovery Mode a trove at 100 percent goes to the other troves alone, and a unit of each stays
/// as dust.
pub fn at_the_whole_example()
    ensures { (run opening at_the_whole).1 ≡ at_the_whole_replies }
{}

/// In Recovery Mode a trove at 110 percent wants a pool that takes all its debt.
pub fn pool_too_small_example()
    ensures { (run opening pool_too_small).1 ≡ pool_too_small_replies }
{}

/// Of a trove above 110 percent its owner may claim what the cap leaves.
pub fn capped_lowest_example()
    ensures { (run opening capped_lowest).1 ≡ capped_lowest_replies }
{}

/// The same by its account.
pub fn capped_single_example()
    ensures { (run opening capped_single).1 ≡ capped_single_replies }
{}

/// A redemption closes the first trove and cuts the second, and raises the fees after it.
pub fn redemption_example()
    ensures { (run opening redemption).1 ≡ redemption_replies }
{}

/// It stops before a cut that would leave too little debt.
pub fn redemption_stops_example()
    ensures { (run opening redemption_stops).1 ≡ redemption_stops_replies }
{}

/// A number that comes again acts once, and none is left out.
pub fn numbers_example()
    ensures { (run opening numbers).1 ≡ numbers_replies }
{}

/// The last trove is neither closed nor liquidated.
pub fn last_trove_example()
    ensures { (run opening last_trove).1 ≡ last_trove_replies }
{}

/// The limits of collateral and of accounts.
pub fn limits_example()
    ensures { (run opening limits).1 ≡ limits_replies }
{}

/// Collateral is brought in, and the next number is told.
pub fn bringing_in_example()
    ensures { (run opening bringing_in).1 ≡ bringing_in_replies }
{}

/// What queries answer at the opening.
pub fn nothing_yet_example()
    ensures { (run opening nothing_yet).1 ≡ nothing_yet_replies }
{}

/// A rotation counts records anew.
pub fn rotation_example()
    ensures { (run opening rotation).1 ≡ rotation_replies }
{}

/// Collateral is taken out, no more than there is.
pub fn taking_out_example()
    ensures { (run opening taking_out).1 ≡ taking_out_replies }
{}

/// Time, its limit, the limits of the price and the least bound of a fee.
pub fn time_and_bounds_example()
    ensures { (run opening time_and_bounds).1 ≡ time_and_bounds_replies }
{}

/// Troves are adjusted both ways, and one of two is closed.
pub fn adjusting_and_closing_example()
    ensures { (run opening adjusting_and_closing).1 ≡ adjusting_and_closing_replies }
{}

/// Troves are adjusted up to each limit, and no further.
pub fn adjusting_to_limits_example()
    ensures { (run opening adjusting_to_limits).1 ≡ adjusting_to_limits_replies }
{}

/// The totals would fall below the critical ratio; and a deposit without a gain has nothing to
/// move.
pub fn totals_too_low_example()
    ensures { (run opening totals_too_low).1 ≡ totals_too_low_replies }
{}

/// In Recovery Mode no borrowing may lower its trove's ratio, and a trove above the ratio of the
/// totals is not liquidated.
pub fn ratio_falls_example()
    ensures { (run opening ratio_falls).1 ≡ ratio_falls_replies }
{}

/// A redemption that would leave too little debt, one whose fee would eat all of it, and one below
/// the least ratio.
pub fn nothing_to_redeem_example()
    ensures { (run opening nothing_to_redeem).1 ≡ nothing_to_redeem_replies }
{}

/// A trove is cut by a redemption, and liquidated when the price falls; the pool takes over a part
/// of its debt.
pub fn redeemed_and_struck_example()
    ensures { (run opening redeemed_and_struck).1 ≡ redeemed_and_struck_replies }
{}

/// A full journal refuses what the rules would allow, until it is rotated; what the rules refuse is
/// refused before.
pub fn full_journal_example()
    ensures { (run with_full_journal full_journal).1 ≡ full_journal_replies }
{}

/// After the last generation there is no rotation.
pub fn last_generation_example()
    ensures { (run in_last_generation last_generation).1 ≡ last_generation_replies }
{}

/// The opening of version 1 has the lesser limit, and a rotation the greater one.
pub fn version_1_example()
    ensures { (run (opening_with LIM_OF_VERSION_1) of_version_1).1 ≡ of_version_1_replies }
{}

/// A liquidation may not raise a sum per stake past its limit.
pub fn greatest_sum_example()
    ensures { (run with_greatest_sum greatest_sum).1 ≡ greatest_sum_replies }
{}

/// What an example's commands do to the Stability Pool, and that these are lawful events.
pub fn events_example()
    ensures events { events opening (accepted opening pool_and_others) ≡ pool_and_others_events }
    ensures lawful { IsLawful opening pool_and_others_events }
{}

/// What opening, adjusting, liquidating and closing do to the ordered list.
pub fn changes_example()
    ensures opened { call_changes (run opening bringing_in).0
        (Open 1 10000000000 4000000000 1000000000000000000 no_hint)
        ≡ Put (pos 422000000000000000) 1 ∷ [] }
    ensures adjusted { call_changes (run opening (take 10 adjusting_and_closing)).0
        (Adjust 1 0 2000000000 0 0 0 no_hint) ≡ Put (pos 736666666666666666) 1 ∷ [] }
    ensures adjusted_again { call_changes (run opening (take 11 adjusting_and_closing)).0
        (Adjust 1 1000000000 0 1000000000 0 1000000000000000000 no_hint)
        ≡ Put (pos 803750000000000000) 1 ∷ [] }
    ensures closed { call_changes (run opening (take 16 adjusting_and_closing)).0 (Close 1)
        ≡ Gone 1 ∷ [] }
    ensures liquidated { call_changes (run opening (take 6 pool_and_others)).0 (Liquidate 3 1)
        ≡ Gone 1 ∷ Words 100000000000 100518720380 2200000000000000 ∷ [] }
{}

/// A unit of collateral and of debt stays in the default pool, and no pool owes more than it has.
pub fn dust_example()
    ensures { dust (run opening at_the_whole).0 ≡ record {
      pool_total = pos 0;
      pool_coll = pos 0;
      default_coll = pos 1;
      default_debt = pos 1;
    } }
{}
