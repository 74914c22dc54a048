//! What holds of every sound state, and that every step keeps it sound. The functions here do
//! nothing: each is the place where the facts of its contract are proved.

ghost use Rattle.std.specs.Prelude.{◌≡◌, ℕ, ◌+◌, ◌-◌, ◌*◌, ◌^◌, ◌≤◌, ◌<◌, List, drop, Some, None, Ok, pos, ◌≤ℤ◌};
ghost use Rattle.std.specs.List.{AllByRecursion};
ghost use Rattle.liq_num.specs.Power.{power_of};
ghost use Rattle.liq_num.specs.declared.ratio.TheConstants.{GWEI_PER_ETH};
ghost use Rattle.liq_types.specs.declared.amounts.TheConstants.{ACCOUNTS, LIM, ONE, P_OPENING, OFFSET_MOST, CAP_WORTH, DECAY};
ghost use Rattle.liq_types.specs.declared.requests.Request.{Request};
ghost use Rattle.liq_types.specs.declared.image.Image.{Image};
ghost use Rattle.liq_types.specs.Image.{IsLimit};
ghost use Rattle.liq_types.specs.PlainLedger.{AreOwnedBelow};
ghost use Rattle.liq_types.specs.Product.{IsWithinRange, rise_of, sumat};
ghost use Rattle.liq_types.specs.Rules.{first_refusal};
ghost use Rattle.liq_types.specs.Soundness.{IsSoundImage};
ghost use Rattle.liq_types.specs.State.{State, opening_with, started, TroveEntry, DepositEntry, Redistribution, After, wallet_of, surplus_of};
ghost use Rattle.liq_types.specs.Tables.{EpochScale, at};
ghost use Rattle.liq_types.specs.Totals.{market_of, total_debt, pool_total, pool_coll};
ghost use Rattle.liq_types.specs.WellFormed.{IsWellFormed};
ghost use Rattle.liq_troves.specs.StakeSums.{sums_now, sums_at, sums_words, trove_rows, pending_coll, pending_debt, entire_of, exact_part, somethings, IsShortOf};
ghost use Rattle.liq_stability.specs.Position.{balance_of, gain_of, balance_by, gain_by, mark_of, sums_from, words_of};
ghost use Rattle.liq_stability.specs.Promise.{IsWithinAllowance};
ghost use Rattle.liq_order.specs.Order.{trove_order};
ghost use Rattle.liq_stability.specs.Lawful.{IsLawful};
ghost use Rattle.liq_stability.specs.Words.{pool_words};
ghost use Rattle.liq_rate.specs.Rate.{borrow_rate, redeem_rate};
ghost use Rattle.liq_borrow.specs.declared.change.Change.{Change};
ghost use Rattle.liq_borrow.specs.Borrowing.{adjusting_terms, adjust_rules};
ghost use Rattle.liq_liquidation.specs.declared.one.One.{One};
ghost use Rattle.liq_liquidation.specs.Lowest.{lowest};
ghost use Rattle.liq_liquidation.specs.One.{one};
ghost use Rattle.liq_redemption.specs.Redemption.{cuts_in, redeemed};
ghost use Rattle.liq_rule_step.specs.Dust.{IsCovered, dust};
ghost use Rattle.liq_rule_step.specs.Events.{events};
ghost use Rattle.liq_rule_step.specs.Identities.{IsConserved};
ghost use Rattle.liq_rule_step.specs.Image.{image};
ghost use Rattle.liq_rule_sound.specs.Exact.{IsExactPool};
ghost use Rattle.liq_rule_sound.specs.Parts.{ArePartsOfSound};
ghost use Rattle.liq_rule_sound.specs.SoundState.{IsSoundState, AmountsWithin, SnapshotWithin, WordsWithin, TroveIsCovered, DepositIsCovered, PoolIsWhole, ChangeIsCovered, OneIsCovered, OneFits, OwnFits, StruckFit, StruckStand, CutIsCovered};
ghost use Rattle.liq_rule_step.specs.Step.{step, run, accepted};

/// The opening is sound under either limit, and so is a state that begins with a sound image, as a
/// checkpoint has one; so it is with any count of records beside which the image is sound, as a
/// protocol has one.
pub fn sound_images_begin_sound_states()
    ensures opening { (limit : ℕ) → IsLimit limit → IsSoundState (opening_with limit) }
    ensures started { (i : Image) → IsSoundImage i 0 → IsSoundState (started i) }
    ensures counted { (i : Image) → (records : ℕ) → IsSoundImage i records
        → IsSoundState (record (started i) { records = records }) }
{}

/// Every sound state has its parts.
pub fn sound_states_have_their_parts()
    ensures { (s : State) → IsSoundState s → ArePartsOfSound s (market_of s) (sums_words s)
        (trove_rows s) (trove_order s) (pool_words s) }
{}

/// Every step keeps a sound state, whatever is asked: each of the sixteen verbs, refused or not,
/// and each query; and so does every run.
pub fn steps_keep_states_sound()
    ensures step { (s : State) → IsSoundState s → (request : Request)
        → IsSoundState (step s request).0 }
    ensures run { (s : State) → IsSoundState s → (requests : List Request)
        → IsSoundState (run s requests).0 }
    ensures reached { (limit : ℕ) → IsLimit limit → (requests : List Request)
        → IsSoundState (run (opening_with limit) requests).0 }
{}

/// In a sound state all is conserved: each gwei and each micro-LUSD has one home, there is a
/// reserve for each trove, and the active pool and the surplus are those of their rows. So it is in
/// every state that is reached from one.
pub fn sound_states_are_conserved()
    ensures state { (s : State) → IsSoundState s → IsConserved s }
    ensures run { (s : State) → IsSoundState s → (requests : List Request)
        → IsConserved (run s requests).0 }
{}

/// The events of the accepted commands of every run of a sound state, so of every run from the
/// opening, are a lawful list: each says what the pool's rules give at its moment. They are owned
/// by accounts in range.
pub fn events_of_runs_are_lawful()
    ensures run { (s : State) → IsSoundState s → (requests : List Request)
        → IsLawful s (events s (accepted s requests)) }
    ensures opening { (limit : ℕ) → IsLimit limit → (requests : List Request)
        → IsLawful (opening_with limit) (events (opening_with limit)
        (accepted (opening_with limit) requests)) }
    ensures owners { (s : State) → IsSoundState s → (requests : List Request)
        → AreOwnedBelow ACCOUNTS (events s (accepted s requests)) }
{}

/// Every depositor of every state that is reached from the opening has its exact share, as the
/// plain ledger of the run's events gives it, but for the allowance; so it has in every well-formed
/// state with the same image, as one that begins again.
pub fn depositors_of_runs_get_their_shares()
    ensures reached { (limit : ℕ) → IsLimit limit → (requests : List Request) → (account : ℕ)
        → IsWithinAllowance (run (opening_with limit) requests).0 account
        (events (opening_with limit) (accepted (opening_with limit) requests)) }
    ensures same { (limit : ℕ) → IsLimit limit → (requests : List Request) → (s : State)
        → IsWellFormed s → image s ≡ image (run (opening_with limit) requests).0 → (account : ℕ)
        → IsWithinAllowance s account (events (opening_with limit)
        (accepted (opening_with limit) requests)) }
{}

/// In every state that is reached from the opening the Stability Pool is what the plain ledger of
/// the run's events says: the exact balances of all accounts come to its LUSD, their exact gains to
/// the collateral of all offsets, and what was paid of these is what is no longer in it. The caps
/// on a position never act. So it is in every well-formed state with the same image, as one that
/// begins again.
pub fn pools_of_runs_are_exact()
    ensures reached { (limit : ℕ) → IsLimit limit → (requests : List Request)
        → IsExactPool (run (opening_with limit) requests).0 (events (opening_with limit)
        (accepted (opening_with limit) requests)) }
    ensures same { (limit : ℕ) → IsLimit limit → (requests : List Request) → (s : State)
        → IsWellFormed s → image s ≡ image (run (opening_with limit) requests).0
        → IsExactPool s (events (opening_with limit) (accepted (opening_with limit) requests)) }
{}

/// Dust is never negative: in every sound state what is pending for all troves is in the default
/// pool, and in every state that is reached from the opening, and in every well-formed one with the
/// same image, what all depositors may take is in the Stability Pool too.
pub fn dust_is_never_negative()
    ensures default_coll { (s : State) → IsSoundState s → pos 0 ≤ℤ (dust s).default_coll }
    ensures default_debt { (s : State) → IsSoundState s → pos 0 ≤ℤ (dust s).default_debt }
    ensures reached { (limit : ℕ) → IsLimit limit → (requests : List Request)
        → IsCovered (dust (run (opening_with limit) requests).0) }
    ensures same { (limit : ℕ) → IsLimit limit → (requests : List Request) → (s : State)
        → IsWellFormed s → image s ≡ image (run (opening_with limit) requests).0
        → IsCovered (dust s) }
{}

/// Bounds of every sound state: its limit, which is one of two; the collateral inside and all debt,
/// which are within it; the product and the sums of the Stability Pool, its scale and epoch by the
/// counts of records, the sums per stake, and, by the greater limit, all amounts but those of a
/// snapshot. A snapshot's are within that too where the state is reached from the opening: the
/// rules of an image leave them open.
pub fn sound_states_stay_within_bounds()
    ensures limit { (s : State) → IsSoundState s → IsLimit s.limit }
    ensures inside { (s : State) → IsSoundState s → (s.brought ≤ s.limit)
        × (total_debt s ≤ s.limit) }
    ensures words { (s : State) → IsSoundState s → WordsWithin s }
    ensures amounts { (s : State) → IsSoundState s → AmountsWithin LIM s }
    ensures snapshot { (limit : ℕ) → IsLimit limit → (requests : List Request)
        → SnapshotWithin LIM (run (opening_with limit) requests).0 }
{}

/// Where the rules take something away from an amount, the amount is no less: the sums of a trove's
/// and of a deposit's mark are at most those of now, and so is its place; each pool has what a
/// trove takes out of it, and the stakes the trove's own; what left the Stability Pool had come
/// into it; what is in a wallet is inside, and what an owner may claim in the surplus pool; and the
/// minute is not before the fee's.
pub fn nothing_is_cut_at_zero()
    ensures troves { (s : State) → IsSoundState s → (account : ℕ) → (t : TroveEntry)
        → at s.troves account ≡ Some t → TroveIsCovered s t }
    ensures deposits { (s : State) → IsSoundState s → (account : ℕ) → (d : DepositEntry)
        → at s.deposits account ≡ Some d → DepositIsCovered s d }
    ensures pool { (s : State) → IsWellFormed s → PoolIsWhole s }
    ensures wallets { (s : State) → IsSoundState s → (account : ℕ) → (wallet_of s account).coll
        ≤ s.brought }
    ensures surplus { (s : State) → IsSoundState s → (account : ℕ) → surplus_of s account
        ≤ s.surplus }
    ensures minute { (s : State) → IsSoundState s → s.fee_minute ≤ s.minute }
{}

/// The products that are divided stay below 2^128. Of the Stability Pool: a deposit's amount times
/// the product or any sum, what an offset makes of the product, for each rise of the scale that is
/// tried (and where there is one, below 10^18 times what the pool has), and the collateral of an
/// offset times the product. Of troves: what is due to one before any rounding (which is not
/// bounded by the stake and the sums alone), its debt for its key, and its collateral times the
/// stakes of a snapshot, where these have 64 bits, as they have in each state that is reached from
/// the opening. Of a liquidation: the cap on the collateral, the pool's share of it and what is
/// spread, also along the lowest troves. Of a redemption: what is drawn for a lot, and what is
/// redeemed beside the supply. Of rates: the base rate times a power, and any rate times an amount
/// of 64 bits.
pub fn products_fit()
    ensures due_coll { (s : State) → IsSoundState s → (account : ℕ) → (t : TroveEntry)
        → at s.troves account ≡ Some t → t.stake * ((sums_now s).coll - (sums_at s t.mark).coll)
        ≤ ONE * LIM }
    ensures due_debt { (s : State) → IsSoundState s → (account : ℕ) → (t : TroveEntry)
        → at s.troves account ≡ Some t → t.stake * ((sums_now s).debt - (sums_at s t.mark).debt)
        ≤ ONE * LIM }
    ensures balance { (s : State) → IsSoundState s → (account : ℕ) → (d : DepositEntry)
        → at s.deposits account ≡ Some d → d.amount * (words_of s).p ≤ P_OPENING * LIM }
    ensures gain { (s : State) → IsSoundState s → (account : ℕ) → (d : DepositEntry)
        → at s.deposits account ≡ Some d → (place : EpochScale)
        → d.amount * sumat s.start s.offsets place ≤ OFFSET_MOST * P_OPENING * LIM }
    ensures product { (s : State) → IsSoundState s → (debt coll : ℕ) → 1 ≤ debt
        → debt < pool_total s → (steps : ℕ) → steps ≤ rise_of (words_of s).p (record {
          debt = debt;
          coll = coll;
          total = pool_total s;
        })
        → (words_of s).p * ((pool_total s - debt) * 10 ^ (9 * steps)) < (P_OPENING + 1) * LIM }
    ensures below { OFFSET_MOST * P_OPENING * LIM < 2 ^ 128 }
    ensures offset { (s : State) → IsSoundState s → (debt coll : ℕ) → debt ≤ pool_total s
        → coll ≤ OFFSET_MOST * debt → coll * (words_of s).p ≤ OFFSET_MOST * P_OPENING * LIM }
    ensures liquidate { (s : State) → IsSoundState s → (account : ℕ) → (made : One)
        → one s account ≡ Ok made → OneFits s made }
    ensures own { (s : State) → IsSoundState s → (account : ℕ) → (own : ℕ × ℕ) → entire_of s account
        ≡ Some own → OwnFits s own }
    ensures lowest { (s : State) → IsSoundState s → (count : ℕ) → StruckFit s (lowest s count) }
    ensures rise { (s : State) → IsWithinRange (words_of s) → pool_total s ≤ LIM → (debt coll : ℕ)
        → 1 ≤ debt → debt < pool_total s → (steps : ℕ)
        → steps ≤ rise_of (words_of s).p (record { debt = debt; coll = coll; total = pool_total s })
        → (words_of s).p * ((pool_total s - debt) * 10 ^ (9 * steps)) < (P_OPENING + 1) * LIM }
    ensures raised { (s : State) → IsSoundState s → (debt coll : ℕ) → 1 ≤ debt → debt < pool_total s
        → (steps : ℕ) → 1 ≤ steps
        → steps ≤ rise_of (words_of s).p (record { debt = debt; coll = coll; total = pool_total s })
        → (words_of s).p * ((pool_total s - debt) * 10 ^ (9 * steps)) < P_OPENING * pool_total s }
    ensures key { (s : State) → IsSoundState s → (account : ℕ) → (t : TroveEntry)
        → at s.troves account ≡ Some t → t.debt * ONE ≤ ONE * LIM }
    ensures draw { (s : State) → IsSoundState s → (account : ℕ) → (own : ℕ × ℕ)
        → entire_of s account ≡ Some own → (lot : ℕ) → lot ≤ own.1 → lot * GWEI_PER_ETH
        ≤ GWEI_PER_ETH * LIM }
    ensures redeem { (s : State) → IsSoundState s → (account amount : ℕ)
        → amount ≤ (wallet_of s account).lusd → redeemed (cuts_in s amount) * ONE ≤ ONE * LIM }
    ensures decay { (s : State) → IsSoundState s → (minutes : ℕ) → s.base * power_of DECAY minutes
        ≤ ONE * ONE }
    ensures rates { (rate amount : ℕ) → rate ≤ ONE → amount < 2 ^ 64
        → rate * amount < ONE * 2 ^ 64 }
    ensures fees { (left base amount : ℕ) → amount < 2 ^ 64
        → (borrow_rate left * amount < ONE * 2 ^ 64) × (redeem_rate base * amount < ONE * 2 ^ 64) }
    ensures stake { (s : State) → IsSoundState s → s.snap_stakes < 2 ^ 64 → (coll : ℕ)
        → coll ≤ s.brought → coll * s.snap_stakes < 2 ^ 64 * LIM }
    ensures stake_reached { (limit : ℕ) → IsLimit limit → (requests : List Request)
        → let now = (run (opening_with limit) requests).0 in (coll : ℕ) → coll ≤ now.brought
        → coll * now.snap_stakes ≤ LIM * LIM }
    ensures all_below { (ONE * LIM < 2 ^ 128) × (P_OPENING * LIM < 2 ^ 128)
        × ((P_OPENING + 1) * LIM < 2 ^ 128) × (LIM * LIM < 2 ^ 128) × (CAP_WORTH * LIM < 2 ^ 128)
        × (GWEI_PER_ETH * LIM < 2 ^ 128) × (ONE * ONE < 2 ^ 128) × (ONE * 2 ^ 64 < 2 ^ 128)
        × (2 ^ 64 * LIM < 2 ^ 128) }
{}

/// What is pending for a trove that was set since the state began is at most its exact part of the
/// redistributions since, and short of it by less than 1 and the stake's 10^18th part for each of
/// them that was of more than nothing. In a state that is reached from the opening every trove is
/// such a one.
pub fn pending_is_nearly_exact()
    ensures coll { (s : State) → IsSoundState s → (t : TroveEntry) → (n : ℕ) → t.mark ≡ After n
        → IsShortOf (pending_coll s t) t.stake (somethings (λ (r : Redistribution). r.coll)
        (drop n s.redistributions)) (exact_part (λ (r : Redistribution). r.coll) t.stake
        (drop n s.redistributions)) }
    ensures debt { (s : State) → IsSoundState s → (t : TroveEntry) → (n : ℕ) → t.mark ≡ After n
        → IsShortOf (pending_debt s t) t.stake (somethings (λ (r : Redistribution). r.debt)
        (drop n s.redistributions)) (exact_part (λ (r : Redistribution). r.debt) t.stake
        (drop n s.redistributions)) }
    ensures reached { (limit : ℕ) → IsLimit limit → (requests : List Request) → (account : ℕ)
        → (t : TroveEntry) → at (run (opening_with limit) requests).0.troves account ≡ Some t
        → (n : ℕ) × (t.mark ≡ After n) }
{}

/// What an allowed call takes from troves and pool is there, so that nothing is cut at zero. An
/// adjusted trove keeps some collateral and the least debt. All that becomes of a liquidated trove
/// is in it, and comes together to it; the pool takes over no more than it has, for at most
/// [`OFFSET_MOST`] gwei each micro-LUSD. So it is along the lowest troves too: after each the
/// troves stand as in a sound state. A redemption takes less collateral than a trove has, and no
/// more debt than beside its reserve; together no more than is wanted.
pub fn calls_take_what_is_there()
    ensures adjust { (s : State) → IsSoundState s → (account bound : ℕ) → (change : Change)
        → (own : ℕ × ℕ) → entire_of s account ≡ Some own
        → first_refusal (adjust_rules (market_of s) (wallet_of s account) (entire_of s account)
        account change bound) ≡ None
        → ChangeIsCovered own change (adjusting_terms (market_of s) own change) }
    ensures liquidate { (s : State) → IsSoundState s → (account : ℕ) → (made : One) → (own : ℕ × ℕ)
        → one s account ≡ Ok made → entire_of s account ≡ Some own → OneIsCovered s own made }
    ensures lowest { (s : State) → IsSoundState s → (count : ℕ) → StruckStand s (lowest s count) }
    ensures redeem { (s : State) → IsSoundState s → (amount : ℕ)
        → AllByRecursion (CutIsCovered s) (cuts_in s amount) }
    ensures redeem_together { (s : State) → IsSoundState s → (amount : ℕ)
        → redeemed (cuts_in s amount) ≤ amount }
{}
