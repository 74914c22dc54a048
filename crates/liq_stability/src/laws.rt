//! What holds of the definitions that the contracts cite. The functions here do nothing: each is
//! the place where the facts of its contract are proved.

ghost use Rattle.std.specs.Prelude.{◌≡◌, ℕ, ◌+◌, ◌-◌, ◌*◌, ◌/◌, ◌^◌, ◌≤◌, ◌<◌, List, ◌++◌, false, unwrap_or, Some, sum, map, fold, length};
ghost use Rattle.std.specs.List.{AllByRecursion};
ghost use Rattle.std.specs.List.Sorted.{IsStrictlySortedBy};
ghost use Rattle.std.specs.Map.{keys_of, values_of, lookup};
ghost use Rattle.liq_num.specs.Quotient.{floor_of};
ghost use Rattle.liq_types.specs.declared.events.PoolEvent.{PoolEvent};
ghost use Rattle.liq_types.specs.Allowance.{balance_allowance, gain_allowance};
ghost use Rattle.liq_types.specs.declared.image.Image.{Image};
ghost use Rattle.liq_types.specs.PlainLedger.{exact_share, den_of, offsets_coll, gains_paid_to, AreOwnedBelow, over_accounts};
ghost use Rattle.liq_types.specs.Product.{IsWithinRange, rise_of, is_place, place_order, place_of, prod, sumat, finished_sums};
ghost use Rattle.liq_types.specs.State.{State, DepositEntry, PoolOffset, opening};
ghost use Rattle.liq_types.specs.Tables.{EpochScale, at};
ghost use Rattle.liq_types.specs.Totals.{pool_total, pool_coll};
ghost use Rattle.liq_types.specs.WellFormed.{AreFinished, DepositsAreMarked, IsBefore, IsPoolCovered};
ghost use Rattle.liq_stability.specs.Kept.{Kept, IsPoolOf, position_at, words_owned, left_in};
ghost use Rattle.liq_stability.specs.Lawful.{IsLawful, IsLawfulUpTo};
ghost use Rattle.liq_stability.specs.Own.{owned, offset, amount_after, after_event, after_events, pool_of};
ghost use Rattle.liq_stability.specs.Position.{balance_of, gain_of, balance_by, gain_by, mark_of, sums_from};
ghost use Rattle.liq_stability.specs.Promise.{IsWithinAllowance, gained_of};
ghost use Rattle.liq_stability.specs.Words.{words_of, pool_words, words_after, finished_by, finished_with};
ghost use Rattle.liq_stability.specs.Worth.{base_of, worth_of};

use liq_types::amounts::{OFFSET_MOST, P_OPENING, RISES_MOST};

/// An amount that is taken through the product first and through the scales then, rounded down each
/// time, is the same as rounded down once.
pub fn balance_rounds_once()
    ensures { (amount p mark rise : ℕ) → floor_of amount p mark / 10 ^ (9 * rise)
        ≡ floor_of amount p (mark * 10 ^ (9 * rise)) }
{}

/// The caps hold: no position is more than the pool has, whatever state it is read in.
/// ([`the_pool_covers_all`] says that they never act.)
pub fn caps_hold()
    ensures balance { (s : State) → (account : ℕ) → balance_of s account ≤ pool_total s }
    ensures gain { (s : State) → (account : ℕ) → gain_of s account ≤ pool_coll s }
{}

/// An offset makes of a state's words what their own rule says, and finishes the sum of the place
/// that they leave.
pub fn offsets_move_the_words()
    ensures words { (s : State) → AreFinished s.start → IsPoolCovered s → (debt coll : ℕ) →
        pool_words (offset s debt coll) ≡ words_after (pool_words s) debt coll }
    ensures finished { (s : State) → (debt coll : ℕ) →
        finished_sums s.start (offset s debt coll).offsets
        ≡ finished_with (finished_sums s.start s.offsets) (finished_by (pool_words s) debt coll) }
{}

/// The calls follow the rules on states. A pool that has what a state says of it reads as the
/// state, and after an own operation or an offset it has what the state then says.
pub fn pools_follow_states()
    ensures position { (s : State) → (pool : Kept) → AreFinished s.start → IsPoolOf s pool
        → (account : ℕ) →
        position_at pool account ≡ (balance_of s account, gain_of s account) }
    ensures owned { (s : State) → (pool next : Kept) → IsPoolCovered s → IsPoolOf s pool
        → (account put_in paid_out : ℕ) →
        next.words ≡ words_owned pool.words put_in paid_out (gain_of s account)
        → next.finished ≡ pool.finished →
        next.deposits.rows ≡ left_in pool.deposits.rows pool.words account
        (amount_after s account put_in paid_out) →
        IsPoolOf (owned s account put_in paid_out) next }
    ensures offset { (s : State) → (pool next : Kept) → AreFinished s.start
        → DepositsAreMarked (length s.offsets) s.deposits → IsPoolCovered s →
        IsPoolOf s pool → (debt coll : ℕ) → next.words ≡ words_after pool.words debt coll →
        next.finished ≡ finished_with pool.finished (finished_by pool.words debt coll)
        → next.deposits.rows ≡ pool.deposits.rows →
        IsPoolOf (offset s debt coll) next }
{}

/// The finished sums ascend by their places, which all come before the place of now, and none is 0,
/// where this holds of the image from which the offsets began. Each is the sum of its place, and
/// where there is none the sum is 0.
pub fn finished_sums_stay_in_order()
    ensures ascending { (i : Image) → (offsets : List PoolOffset)
        → IsStrictlySortedBy place_order (keys_of i.finished) →
        IsStrictlySortedBy place_order (keys_of (finished_sums i offsets)) }
    ensures some { (i : Image) → (offsets : List PoolOffset)
        → AllByRecursion (λ sum. 1 ≤ sum) (values_of i.finished) →
        AllByRecursion (λ sum. 1 ≤ sum) (values_of (finished_sums i offsets)) }
    ensures before { (i : Image) → (offsets : List PoolOffset) → AreFinished i →
        AllByRecursion (λ (row : EpochScale × ℕ). IsBefore row.0 (place_of (prod i offsets)))
        (finished_sums i offsets) }
    ensures shown { (i : Image) → (offsets : List PoolOffset) → AreFinished i → (place : EpochScale)
        → is_place (place_of (prod i offsets)) place ≡ false →
        unwrap_or (lookup (is_place place) (finished_sums i offsets)) 0 ≡ sumat i offsets place }
{}

/// Lawful lists one after another are a lawful list, and each part of a lawful list is lawful where
/// it begins.
pub fn lawful_lists_join()
    ensures joined { (most : ℕ) → (s : State) → (first rest : List PoolEvent)
        → IsLawfulUpTo most s first →
        IsLawfulUpTo most (fold after_event s first) rest → IsLawfulUpTo most s (first ++ rest) }
    ensures first { (most : ℕ) → (s : State) → (first rest : List PoolEvent)
        → IsLawfulUpTo most s (first ++ rest) → IsLawfulUpTo most s first }
    ensures rest { (most : ℕ) → (s : State) → (first rest : List PoolEvent)
        → IsLawfulUpTo most s (first ++ rest) →
        IsLawfulUpTo most (fold after_event s first) rest }
{}

/// Positions, words and lawful lists rest on the Stability Pool's part of a state alone, and events
/// change that part alone. So what every depositor is promised holds in each state that has the
/// pool of these events, whatever else it has.
pub fn only_the_pool_counts()
    ensures positions { (s : State) → (account : ℕ) →
        (balance_of (pool_of s) account ≡ balance_of s account) × (gain_of (pool_of s) account
        ≡ gain_of s account) }
    ensures words { (s : State) → pool_words (pool_of s) ≡ pool_words s }
    ensures events { (s : State) → (e : PoolEvent) → pool_of (after_event s e)
        ≡ after_event (pool_of s) e }
    ensures lawful { (most : ℕ) → (s t : State) → pool_of s ≡ pool_of t → (events : List PoolEvent)
        → IsLawfulUpTo most s events → IsLawfulUpTo most t events }
    ensures promise { (s : State) → (events : List PoolEvent) → IsLawful opening events
        → pool_of s ≡ pool_of (after_events events) →
        (account : ℕ) → IsWithinAllowance s account events }
{}

/// After lawful events no balance and no sum of all gains is more than the exact share, whatever
/// the pool's limit is, as long as [`RISES_MOST`] steps of the scale serve it. `unrounded` says the
/// same of a deposit before its balance is rounded.
pub fn shares_are_never_passed()
    ensures balance { (most : ℕ) → most ≤ 10 ^ (9 * RISES_MOST) → (events : List PoolEvent)
        → IsLawfulUpTo most opening events → (account : ℕ) →
        balance_of (after_events events) account * (exact_share account events).den
        ≤ (exact_share account events).bal }
    ensures gain { (most : ℕ) → most ≤ 10 ^ (9 * RISES_MOST) → (events : List PoolEvent)
        → IsLawfulUpTo most opening events → (account : ℕ) →
        gained_of (after_events events) account events * (exact_share account events).den
        ≤ (exact_share account events).gain }
    ensures unrounded { (most : ℕ) → most ≤ 10 ^ (9 * RISES_MOST) → (events : List PoolEvent)
        → IsLawfulUpTo most opening events → (account : ℕ) →
        (d : DepositEntry) → at (after_events events).deposits account ≡ Some d →
        d.amount * worth_of (mark_of (after_events events) d.mark) (words_of (after_events events))
        * (exact_share account events).den
        ≤ (exact_share account events).bal * base_of (mark_of (after_events events) d.mark) }
{}

/// After lawful events a balance is less than the exact share by at most its allowance.
pub fn balances_fall_short_by_little()
    ensures { (most : ℕ) → most ≤ 10 ^ (9 * RISES_MOST) → (events : List PoolEvent)
        → IsLawfulUpTo most opening events → (account : ℕ) →
        (exact_share account events).bal ≤ (balance_of (after_events events) account
        + balance_allowance account events) * (exact_share account events).den }
{}

/// After lawful events all that an account gained is less than the exact share by at most its
/// allowance.
pub fn gains_fall_short_by_little()
    ensures { (most : ℕ) → most ≤ 10 ^ (9 * RISES_MOST) → (events : List PoolEvent)
        → IsLawfulUpTo most opening events → (account : ℕ) →
        (exact_share account events).gain ≤ (gained_of (after_events events) account events
        + gain_allowance account events) * (exact_share account events).den }
{}

/// After lawful events the exact balances of all accounts are the pool's total, their exact gains
/// the collateral of all offsets, and what was paid all gains that were paid. So the caps on a
/// position never act, and what all depositors may take is in the pool.
pub fn the_pool_covers_all()
    ensures balances { (most : ℕ) → most ≤ 10 ^ (9 * RISES_MOST) → (events : List PoolEvent)
        → IsLawfulUpTo most opening events → (n : ℕ) → AreOwnedBelow n events →
        over_accounts n (λ account. (exact_share account events).bal)
        ≡ pool_total (after_events events) * den_of events }
    ensures gains { (most : ℕ) → most ≤ 10 ^ (9 * RISES_MOST) → (events : List PoolEvent)
        → IsLawfulUpTo most opening events → (n : ℕ) → AreOwnedBelow n events →
        over_accounts n (λ account. (exact_share account events).gain)
        ≡ offsets_coll events * den_of events }
    ensures paid { (most : ℕ) → most ≤ 10 ^ (9 * RISES_MOST) → (events : List PoolEvent)
        → IsLawfulUpTo most opening events → (n : ℕ) → AreOwnedBelow n events →
        pool_coll (after_events events) + over_accounts n (λ account. gains_paid_to account events)
        ≡ offsets_coll events }
    ensures one_den { (most : ℕ) → most ≤ 10 ^ (9 * RISES_MOST) → (events : List PoolEvent)
        → IsLawfulUpTo most opening events → (account : ℕ) →
        ((exact_share account events).den ≡ den_of events) × (0 < den_of events) }
    ensures caps { (most : ℕ) → most ≤ 10 ^ (9 * RISES_MOST) → (events : List PoolEvent)
        → IsLawfulUpTo most opening events → (account : ℕ) →
        (d : DepositEntry) → at (after_events events).deposits account ≡ Some d →
        (balance_of (after_events events) account
        ≡ balance_by d.amount (mark_of (after_events events) d.mark)
        (words_of (after_events events)))
        × (gain_of (after_events events) account
        ≡ gain_by d.amount (mark_of (after_events events) d.mark) (sums_from (after_events events)
        (mark_of (after_events events) d.mark))) }
    ensures balances_held { (most : ℕ) → most ≤ 10 ^ (9 * RISES_MOST) → (events : List PoolEvent)
        → IsLawfulUpTo most opening events →
        sum (map (balance_of (after_events events)) (keys_of (after_events events).deposits))
        ≤ pool_total (after_events events) }
    ensures gains_held { (most : ℕ) → most ≤ 10 ^ (9 * RISES_MOST) → (events : List PoolEvent)
        → IsLawfulUpTo most opening events →
        sum (map (gain_of (after_events events)) (keys_of (after_events events).deposits))
        ≤ pool_coll (after_events events) }
{}

/// After lawful events the product is in its range, the sum beside it is at most the part of the
/// whole that the product has lost, [`OFFSET_MOST`] times, and every sum at most that of the whole.
pub fn the_words_stay_within()
    ensures product { (most : ℕ) → most ≤ 10 ^ (9 * RISES_MOST) → (events : List PoolEvent)
        → IsLawfulUpTo most opening events →
        IsWithinRange (words_of (after_events events)) }
    ensures sum { (most : ℕ) → most ≤ 10 ^ (9 * RISES_MOST) → (events : List PoolEvent)
        → IsLawfulUpTo most opening events →
        (pool_words (after_events events)).sum
        ≤ OFFSET_MOST * (P_OPENING - (pool_words (after_events events)).p) }
    ensures sums { (most : ℕ) → most ≤ 10 ^ (9 * RISES_MOST) → (events : List PoolEvent)
        → IsLawfulUpTo most opening events → (place : EpochScale) →
        sumat (after_events events).start (after_events events).offsets place
        ≤ OFFSET_MOST * P_OPENING }
{}

/// What every depositor is promised, at the limit of the rules: after lawful events neither the
/// balance nor all that was gained passes the exact share, nor falls short of it by more than the
/// allowance.
pub fn depositors_get_their_shares()
    ensures { (events : List PoolEvent) → IsLawful opening events → (account : ℕ)
        → IsWithinAllowance (after_events events) account events }
{}

/// Where an offset raises the scale, what is divided is below the whole of all that the pool has,
/// for each rise that is tried and the one that suffices, whatever the product and the offset are.
/// So it has 128 bits wherever the pool has 64.
pub fn raised_products_fit()
    ensures { (p : ℕ) → (o : PoolOffset) → 0 < o.total → (rise : ℕ) → 1 ≤ rise → rise ≤ rise_of p o
        → p * ((o.total - o.debt) * 10 ^ (9 * rise)) < P_OPENING * o.total }
{}
