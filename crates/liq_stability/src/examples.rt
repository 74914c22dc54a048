//! Worked examples of the Stability Pool, run by hand. The functions here do nothing; each is the
//! place where the facts of its contract are proved.

ghost use Rattle.std.specs.Prelude.{◌≡◌, ◌*◌, ◌<◌, [], ◌∷◌};
ghost use Rattle.liq_types.specs.PlainLedger.{exact_share};
ghost use Rattle.liq_types.specs.State.{opening};
ghost use Rattle.liq_types.specs.Product.{finished_sums};
ghost use Rattle.liq_stability.specs.Examples.{after_events, position, allowances, one_rise, two_rises, three_rises, four_scales_on, shared, shared_again, emptied, paid_out, begun_again, at_the_least, after_another};
ghost use Rattle.liq_stability.specs.Lawful.{IsLawful};
ghost use Rattle.liq_stability.specs.OtherRounding.{balance_upward, gain_carried};
ghost use Rattle.liq_stability.specs.Position.{balance_of, gain_of};
ghost use Rattle.liq_stability.specs.Promise.{IsWithinAllowance};
ghost use Rattle.liq_stability.specs.Words.{pool_words};

/// An offset that leaves one micro-LUSD of 10^18 raises the scale.
pub fn one_rise_example()
    ensures { pool_words (after_events one_rise) ≡ record {
      p = 1000000000;
      scale = 1;
      epoch = 0;
      sum = 0;
      total = 1;
      coll = 0;
    } }
{}

/// From the least product on it raises the scale twice at once, and the sum of the scale that it
/// leaves is finished.
pub fn two_rises_example()
    ensures words { pool_words (after_events two_rises) ≡ record {
      p = 1000000000;
      scale = 3;
      epoch = 0;
      sum = 0;
      total = 1;
      coll = 1000000000000000000;
    } }
    ensures finished { finished_sums opening.start (after_events two_rises).offsets
        ≡ ((0, 1), 1000000000) ∷ [] }
    ensures first { position (after_events two_rises) 1 ≡ (0, 1) }
    ensures second { position (after_events two_rises) 2 ≡ (0, 999999999999999999) }
{}

/// Where the pool has all that it may have, it raises the scale three times at once.
pub fn three_rises_example()
    ensures lawful { IsLawful opening three_rises }
    ensures words { pool_words (after_events three_rises) ≡ record {
      p = 100000000000000000;
      scale = 4;
      epoch = 0;
      sum = 0;
      total = 1;
      coll = 10000000000000000000;
    } }
    ensures finished { finished_sums opening.start (after_events three_rises).offsets
        ≡ ((0, 1), 1000000000) ∷ [] }
    ensures first { position (after_events three_rises) 1 ≡ (0, 1) }
    ensures second { position (after_events three_rises) 2 ≡ (0, 9999999999999999999) }
{}

/// What is more than three scales back stays as it is.
pub fn four_scales_on_example()
    ensures words { pool_words (after_events four_scales_on) ≡ record {
      p = 1000000000;
      scale = 5;
      epoch = 0;
      sum = 0;
      total = 1;
      coll = 1000000000000000000;
    } }
    ensures first { position (after_events four_scales_on) 1 ≡ (0, 1) }
    ensures second { position (after_events four_scales_on) 2 ≡ (0, 999999999999999999) }
    ensures third { position (after_events four_scales_on) 3 ≡ (0, 0) }
{}

/// Two depositors share offsets by what they have at each.
pub fn shared_example()
    ensures words { pool_words (after_events shared) ≡ record {
      p = 666666666666666666;
      scale = 0;
      epoch = 0;
      sum = 233333333333333333;
      total = 200;
      coll = 70;
    } }
    ensures first { position (after_events shared) 1 ≡ (66, 23) }
    ensures second { position (after_events shared) 2 ≡ (133, 46) }
    ensures words_again { pool_words (after_events shared_again) ≡ record {
      p = 533333333333333332;
      scale = 0;
      epoch = 0;
      sum = 313333333333333332;
      total = 200;
      coll = 77;
    } }
    ensures first_again { position (after_events shared_again) 1 ≡ (92, 13) }
    ensures second_again { position (after_events shared_again) 2 ≡ (106, 62) }
{}

/// An offset of the whole pool ends the epoch: nothing is left, and the gain stays.
pub fn emptied_example()
    ensures words { pool_words (after_events emptied) ≡ record {
      p = 1000000000000000000;
      scale = 0;
      epoch = 1;
      sum = 0;
      total = 0;
      coll = 9431279620;
    } }
    ensures position { position (after_events emptied) 1 ≡ (0, 9431279620) }
{}

/// After a payment out of the pool, and with a second deposit in the next epoch.
pub fn own_operations_example()
    ensures paid_out_first { position (after_events paid_out) 1 ≡ (32, 2) }
    ensures paid_out_second { position (after_events paid_out) 2 ≡ (119, 54) }
    ensures begun_again_first { position (after_events begun_again) 1 ≡ (400, 75) }
    ensures begun_again_second { position (after_events begun_again) 2 ≡ (1200, 225) }
{}

/// The lists are lawful: each event is what the rules give at its moment.
pub fn lists_are_lawful_example()
    ensures four_scales_on { IsLawful opening four_scales_on }
    ensures shared_again { IsLawful opening shared_again }
    ensures paid_out { IsLawful opening paid_out }
    ensures begun_again { IsLawful opening begun_again }
{}

/// The exact shares of those that were paid out, and by how much the pool's balances and gains may
/// fall short, also where the scale rose.
pub fn allowances_example()
    ensures paid_out_share { exact_share 1 paid_out ≡ record {
      den = 51000;
      bal = 1683000;
      gain = 1300000;
    } }
    ensures paid_out { allowances 1 paid_out ≡ (3, 31) }
    ensures begun_again { allowances 1 begun_again ≡ (7, 79) }
    ensures emptied { allowances 1 emptied ≡ (5, 63) }
    ensures two_rises { allowances 1 two_rises ≡ (1000000002, 12000000027) }
    ensures first { allowances 1 four_scales_on ≡ (1000000003, 12000000028) }
    ensures second { allowances 2 four_scales_on ≡ (1000000001, 12000000015) }
    ensures third { allowances 3 four_scales_on ≡ (1000000001, 12000000015) }
{}

/// Exact shares over several scales, and the four inequalities of each account, worked out on these
/// numbers alone.
pub fn exact_shares_example()
    ensures first { exact_share 1 two_rises ≡ record {
      den = 1000000000000000000000000000000000000;
      bal = 1000000000000000000;
      gain = 1000000000000000000000000000000000000;
    } }
    ensures second { exact_share 2 two_rises ≡ record {
      den = 1000000000000000000000000000000000000;
      bal = 999999999999999999000000000000000000;
      gain = 999999999999999999000000000000000000000000000000000000;
    } }
    ensures first_within { IsWithinAllowance (after_events two_rises) 1 two_rises }
    ensures second_within { IsWithinAllowance (after_events two_rises) 2 two_rises }
{}

/// If the product were rounded upward, a balance would pass its exact share: at the least product
/// an offset of 1 would change nothing.
pub fn rounded_upward_example()
    ensures lawful { IsLawful opening at_the_least }
    ensures upward { balance_upward (after_events at_the_least) 999999999999999999 1
        ≡ 999999999999999999 }
    ensures passed { (exact_share 2 at_the_least).bal < balance_upward (after_events at_the_least)
        999999999999999999 1 * (exact_share 2 at_the_least).den }
    ensures downward { balance_of (after_events at_the_least) 2 ≡ 999999999999999998 }
{}

/// If the remainder of a sum's quotient were carried into the next offset, a gain would pass its
/// exact share: the third depositor would get what the second lost.
pub fn carried_remainder_example()
    ensures lawful { IsLawful opening after_another }
    ensures carried { gain_carried (after_events after_another) 999999999599999997 2 ≡ 500000000 }
    ensures passed { (exact_share 3 after_another).gain < gain_carried (after_events after_another)
        999999999599999997 2 * (exact_share 3 after_another).den }
    ensures dropped { gain_of (after_events after_another) 3 ≡ 0 }
{}
