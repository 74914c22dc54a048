//! What holds of the troves in every sound state, of each change of them, and of what is pending.
//! The functions here do nothing: each is the place where the facts of its contract are proved.

ghost use Rattle.std.specs.Prelude.{◌≡◌, ℕ, ◌+◌, ◌*◌, ◌≤◌, Some, None, length, drop};
ghost use Rattle.liq_types.specs.declared.amounts.TheConstants.{SUM_MOST, RESERVE, MIN_NET};
ghost use Rattle.liq_types.specs.declared.figures.Trove.{Trove};
ghost use Rattle.liq_types.specs.State.{State, TroveEntry, Redistribution, After};
ghost use Rattle.liq_types.specs.Tables.{at};
ghost use Rattle.liq_types.specs.WellFormed.{TrovesAreMarked};
ghost use Rattle.liq_troves.specs.Own.{lifted, placed, redistributed, snapped};
ghost use Rattle.liq_troves.specs.Rows.{pending, entire_by, stake_by, sum_after};
ghost use Rattle.liq_troves.specs.Standing.{Books, TroveStands, TrovesStand, HadStakes, books_of, added_up, lift, place, spread, snap};
ghost use Rattle.liq_troves.specs.StakeSums.{pending_coll, pending_debt, exact_part, somethings, IsShortOf};

/// What stands of the troves is kept by each change: a trove leaves; one comes, with some
/// collateral and at least the least debt, where there was none; all take over collateral and debt,
/// where there is no passing of the sums' limit; and a snapshot, where there is a stake. What is
/// pending stays in the default pool throughout.
pub fn troves_stand()
    ensures lift { (b : Books) → (account : ℕ) → TrovesStand b → TrovesStand (lift b account) }
    ensures place { (b : Books) → (account coll debt : ℕ) → at b.troves account ≡ None → 1 ≤ coll
        → RESERVE + MIN_NET ≤ debt → TrovesStand b → TrovesStand (place b account coll debt) }
    ensures spread { (b : Books) → (coll debt : ℕ) → sum_after b.sums.coll coll b.sums.stakes
        ≤ SUM_MOST → sum_after b.sums.debt debt b.sums.stakes ≤ SUM_MOST → TrovesStand b
        → TrovesStand (spread b coll debt) }
    ensures snap { (b : Books) → 1 ≤ b.sums.stakes → TrovesStand b → TrovesStand (snap b) }
{}

/// The books of a state after a change are those that the change makes of them.
pub fn books_follow_states()
    ensures lift { (s : State) → (account : ℕ) → books_of (lifted s account)
        ≡ lift (books_of s) account }
    ensures place { (s : State) → (account coll debt : ℕ) → books_of (placed s account coll debt)
        ≡ place (books_of s) account coll debt }
    ensures spread { (s : State) → (coll debt : ℕ)
        → TrovesAreMarked (length s.redistributions) s.troves → books_of (redistributed s coll debt)
        ≡ spread (books_of s) coll debt }
    ensures snap { (s : State) → books_of (snapped s) ≡ snap (books_of s) }
{}

/// Nothing is taken from a pool beyond what it has where a trove leaves: its recorded amounts are
/// in the active pool, its pending ones in the default pool. Its entire amounts are within the
/// totals; it has some collateral, and the least debt.
pub fn troves_are_within_the_pools()
    ensures coll { (b : Books) → (account : ℕ) → (t : Trove) → at b.troves account ≡ Some t
        → TrovesStand b → t.coll ≤ b.active_coll }
    ensures debt { (b : Books) → (account : ℕ) → (t : Trove) → at b.troves account ≡ Some t
        → TrovesStand b → t.debt ≤ b.active_debt }
    ensures pending_coll { (b : Books) → (account : ℕ) → (t : Trove) → at b.troves account ≡ Some t
        → TrovesStand b → pending t.stake b.sums.coll t.mark_coll ≤ b.default_coll }
    ensures pending_debt { (b : Books) → (account : ℕ) → (t : Trove) → at b.troves account ≡ Some t
        → TrovesStand b → pending t.stake b.sums.debt t.mark_debt ≤ b.default_debt }
    ensures entire_coll { (b : Books) → (account : ℕ) → (t : Trove) → at b.troves account ≡ Some t
        → TrovesStand b → (entire_by b.sums t).0 ≤ b.active_coll + b.default_coll }
    ensures entire_debt { (b : Books) → (account : ℕ) → (t : Trove) → at b.troves account ≡ Some t
        → TrovesStand b → (entire_by b.sums t).1 ≤ b.active_debt + b.default_debt }
    ensures some_coll { (b : Books) → (account : ℕ) → (t : Trove) → at b.troves account ≡ Some t
        → TrovesStand b → 1 ≤ (entire_by b.sums t).0 }
    ensures least_debt { (b : Books) → (account : ℕ) → (t : Trove) → at b.troves account ≡ Some t
        → TrovesStand b → RESERVE + MIN_NET ≤ (entire_by b.sums t).1 }
{}

/// Where there is a trove there is a stake, and the stakes are at most the collateral. A stake is
/// at least 1 and at most its trove's collateral.
pub fn stakes_stay_within()
    ensures some { (b : Books) → 1 ≤ length b.troves → TrovesStand b → 1 ≤ b.sums.stakes }
    ensures coll { (b : Books) → TrovesStand b → b.sums.stakes ≤ b.active_coll }
    ensures least { (snap_stakes snap_coll coll : ℕ) → snap_stakes ≤ snap_coll → 1 ≤ coll
        → 1 ≤ stake_by snap_stakes snap_coll coll }
    ensures most { (snap_stakes snap_coll coll : ℕ) → snap_stakes ≤ snap_coll → 1 ≤ coll
        → stake_by snap_stakes snap_coll coll ≤ coll }
{}

/// What is pending for all troves together, each rounded down, is in the default pool.
pub fn pending_is_covered()
    ensures coll { (b : Books) → TrovesStand b
        → added_up (λ t. pending t.stake b.sums.coll t.mark_coll) b.troves ≤ b.default_coll }
    ensures debt { (b : Books) → TrovesStand b
        → added_up (λ t. pending t.stake b.sums.debt t.mark_debt) b.troves ≤ b.default_debt }
{}

/// What is pending for a trove is at most its exact part of the redistributions since its owner's
/// last operation, and short of it by less than 1 and the stake's 10^18th part for each of them
/// that was of more than nothing, where each went to some stake.
pub fn pending_falls_short_by_little()
    ensures coll { (s : State) → (t : TroveEntry) → (n : ℕ) → t.mark ≡ After n
        → HadStakes s.redistributions
        → IsShortOf (pending_coll s t) t.stake (somethings (λ (r : Redistribution). r.coll)
        (drop n s.redistributions)) (exact_part (λ (r : Redistribution). r.coll) t.stake
        (drop n s.redistributions)) }
    ensures debt { (s : State) → (t : TroveEntry) → (n : ℕ) → t.mark ≡ After n
        → HadStakes s.redistributions
        → IsShortOf (pending_debt s t) t.stake (somethings (λ (r : Redistribution). r.debt)
        (drop n s.redistributions)) (exact_part (λ (r : Redistribution). r.debt) t.stake
        (drop n s.redistributions)) }
{}
