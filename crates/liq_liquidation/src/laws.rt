//! What holds of the definitions that the contracts cite. The functions here do nothing: each is
//! the place where the facts of its contract are proved.

ghost use Rattle.std.specs.Prelude.{◌≡◌, ℕ, ◌≤◌, false, Ok, length};
ghost use Rattle.liq_types.specs.declared.amounts.TheConstants.{LIM};
ghost use Rattle.liq_types.specs.declared.figures.Market.{Market};
ghost use Rattle.liq_types.specs.Product.{finished_sums};
ghost use Rattle.liq_types.specs.Ranked.{without_ranked};
ghost use Rattle.liq_types.specs.State.{State};
ghost use Rattle.liq_types.specs.Totals.{market_of, total_coll, total_debt};
ghost use Rattle.liq_types.specs.WellFormed.{IsWellFormed};
ghost use Rattle.liq_troves.specs.Standing.{TrovesStand, books_of};
ghost use Rattle.liq_order.specs.Order.{trove_order};
ghost use Rattle.liq_stability.specs.Words.{pool_words, finished_with};
ghost use Rattle.liq_liquidation.specs.declared.one.Victim.{Victim};
ghost use Rattle.liq_liquidation.specs.Applied.{AreLeft, finished_in, words_left};
ghost use Rattle.liq_liquidation.specs.Given.{IsMarket};
ghost use Rattle.liq_liquidation.specs.Lowest.{lowest_plan};
ghost use Rattle.liq_liquidation.specs.Moment.{IsSoundMoment, TrovesAreSound, moment_after, moment_of, next_at, plan_from};
ghost use Rattle.liq_liquidation.specs.One.{Capped, treatment, treated, is_kept, cap_of, liquidated, one, one_total_coll, one_total_debt, struck, struck_books};

/// What becomes of a trove that is liquidated adds up to what it had: its collateral goes to the
/// liquidator, the Stability Pool, the other troves and its owner, and its debt to the pool and the
/// other troves.
pub fn parts_add_up()
    ensures coll { (m : Market) → (coll debt total : ℕ) → is_kept (treatment m coll debt) ≡ false →
        one_total_coll (treated (treatment m coll debt) m.price coll debt total) ≡ coll }
    ensures debt { (m : Market) → (coll debt total : ℕ) → is_kept (treatment m coll debt) ≡ false →
        one_total_debt (treated (treatment m coll debt) m.price coll debt total) ≡ debt }
    ensures cap { (m : Market) → (coll debt : ℕ) → treatment m coll debt ≡ Capped
        → cap_of m.price debt ≤ coll }
{}

/// A state with sound troves has a sound moment, whose plan of the lowest is the state's; and the
/// moment after its next victim is that of the state which the victim leaves.
pub fn moments_follow_states()
    ensures sound { (s : State) → TrovesAreSound s → IsMarket (market_of s) → total_coll s ≤ LIM
        → total_debt s ≤ LIM → IsSoundMoment (moment_of s) }
    ensures plan { (s : State) → (count : ℕ) → TrovesAreSound s → lowest_plan s count
        ≡ plan_from (moment_of s) count }
    ensures next { (s : State) → (v : Victim) → TrovesAreSound s → next_at (moment_of s) ≡ Ok v
        → moment_of (struck s v) ≡ moment_after (moment_of s) v }
    ensures kept { (s : State) → (v : Victim) → TrovesAreSound s → next_at (moment_of s) ≡ Ok v
        → TrovesAreSound (struck s v) }
{}

/// Of each part of a state a liquidation leaves what the call that makes it does.
pub fn liquidations_leave_their_parts()
    ensures beside { (s : State) → (v : Victim) → (liquidator : ℕ)
        → AreLeft s (liquidated s liquidator v) liquidator v }
    ensures books { (s : State) → (v : Victim) → (liquidator : ℕ) → IsWellFormed s
        → books_of (liquidated s liquidator v) ≡ struck_books (books_of s) v }
    ensures list { (s : State) → (v : Victim) → (liquidator : ℕ) → IsWellFormed s
        → TrovesStand (books_of s) → one s v.account ≡ Ok v.one
        → trove_order (liquidated s liquidator v) ≡ without_ranked (trove_order s) v.account }
    ensures words { (s : State) → (v : Victim) → (liquidator : ℕ) → IsWellFormed s
        → pool_words (liquidated s liquidator v) ≡ words_left (pool_words s) v.one }
    ensures finished { (s : State) → (v : Victim) → (liquidator : ℕ)
        → finished_sums (liquidated s liquidator v).start (liquidated s liquidator v).offsets
        ≡ finished_with (finished_sums s.start s.offsets) (finished_in (pool_words s) v.one) }
{}
