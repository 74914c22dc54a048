//! Worked examples of the sums per unit of stake. The functions here do nothing; each is the place
//! where the facts of its contract are proved.

ghost use Rattle.std.specs.Prelude.{◌≡◌, Some, None};
ghost use Rattle.liq_types.specs.declared.replies.Refusal.TheVariants.{SumLimit};
ghost use Rattle.liq_types.specs.Rules.{first_refusal};
ghost use Rattle.liq_troves.specs.Examples.{coll_at, debt_at};
ghost use Rattle.liq_troves.specs.Rows.{spread_rules, stake_by};

/// With one unit of stake a redistribution of 10^18 raises its sum by 10^36. At the limit of 10^37
/// the next is refused, and where both sums would pass it the collateral's is told.
pub fn sum_limit_example()
    ensures reached { first_refusal (spread_rules (coll_at 9000000000000000000000000000000000000)
        1000000000000000000 0) ≡ None }
    ensures passed { first_refusal (spread_rules (coll_at 10000000000000000000000000000000000000)
        1000000000000000000 0) ≡ Some (SumLimit 11000000000000000000000000000000000000) }
    ensures debt { first_refusal (spread_rules (debt_at 10000000000000000000000000000000000000) 0
        1000000000000000000) ≡ Some (SumLimit 11000000000000000000000000000000000000) }
    ensures first { first_refusal (spread_rules (coll_at 10000000000000000000000000000000000000)
        1000000000000000000 10000000000000000000)
        ≡ Some (SumLimit 11000000000000000000000000000000000000) }
{}

/// A stake is the collateral itself until there is a snapshot, then its part of the snapshot, and
/// never nothing.
pub fn stake_example()
    ensures whole { stake_by 0 0 7 ≡ 7 }
    ensures part { stake_by 9 10 1000 ≡ 900 }
    ensures least { stake_by 1 1000 7 ≡ 1 }
{}
