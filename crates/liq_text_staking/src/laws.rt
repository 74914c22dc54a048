//! What holds of the definitions that the contracts cite. The functions here do nothing: each is
//! the place where the facts of its contract are proved.

ghost use Rattle.std.specs.Prelude.{◌≡◌, ℕ, ◌≤◌, All, List, Ok, false, length};
ghost use Rattle.liq_types.specs.declared.requests.Command.{Command};
ghost use Rattle.liq_types.specs.Image.{IsLimit};
ghost use Rattle.liq_types.specs.State.{State, opening_with};
ghost use Rattle.liq_types.specs.Verbs.{is_rotate};
ghost use Rattle.liq_disk_pair.specs.Replay.{replay};
ghost use Rattle.liq_fees.specs.declared.changes.TheConstants.{CHANGES_MOST};
ghost use Rattle.liq_fees.specs.declared.lines.StakeLine.{StakeLine};
ghost use Rattle.liq_fees.specs.Happened.{of_coll, of_lusd, IsLawful};
ghost use Rattle.liq_text_staking.specs.Paid.{fees_along, coll_in, lusd_in};
ghost use Rattle.liq_text_staking.specs.Answering.{CanBeShared};
ghost use Rattle.liq_text_staking.specs.Asked.{answered_all};
ghost use Rattle.liq_text_staking.specs.Staked.{staked_text, told};
ghost use Rattle.liq_text_staking.specs.Shares.{happened_by, HaveShares};

use liq_fees::laws::{gains_are_shares, the_fees_cover_all};

/// The fees of commands that are replayed from the opening under a limit come to what is in the fee
/// pool after them. So the fees of one generation are within the greatest limit, and can be shared.
pub fn fees_add_up()
    ensures coll { (limit : ℕ) → (commands : List Command) → (s : State)
        → replay 1 (opening_with limit) commands ≡ Ok s
        → coll_in (fees_along (opening_with limit) commands) ≡ s.fee_coll }
    ensures lusd { (limit : ℕ) → (commands : List Command) → (s : State)
        → replay 1 (opening_with limit) commands ≡ Ok s
        → lusd_in (fees_along (opening_with limit) commands) ≡ s.fee_lusd }
    ensures shared { (limit : ℕ) → IsLimit limit → (commands : List Command)
        → All (λ (c : Command). is_rotate c.call ≡ false) commands → (s : State)
        → replay 1 (opening_with limit) commands ≡ Ok s
        → CanBeShared (fees_along (opening_with limit) commands) }
{}

/// The text that answers stakers tells of a list that can happen, and its fees are what is in the
/// fee pool after the commands. All gains and what stayed unshared are at most that; what an
/// account's row tells is at most its exact share, and less by at most what the row allows.
pub fn stakers_have_their_shares()
    ensures text { (limit : ℕ) → (commands : List Command) → (lines : List StakeLine)
        → staked_text limit commands lines
        ≡ told (answered_all (fees_along (opening_with limit) commands) lines).replies
        (happened_by limit commands lines) }
    ensures lawful { (limit : ℕ) → IsLimit limit → (commands : List Command)
        → All (λ (c : Command). is_rotate c.call ≡ false) commands → (s : State)
        → replay 1 (opening_with limit) commands ≡ Ok s
        → (lines : List StakeLine) → length lines ≤ CHANGES_MOST
        → IsLawful (happened_by limit commands lines) }
    ensures coll { (limit : ℕ) → IsLimit limit → (commands : List Command)
        → All (λ (c : Command). is_rotate c.call ≡ false) commands → (s : State)
        → replay 1 (opening_with limit) commands ≡ Ok s
        → (lines : List StakeLine) → length lines ≤ CHANGES_MOST
        → HaveShares of_coll (happened_by limit commands lines) s.fee_coll }
    ensures lusd { (limit : ℕ) → IsLimit limit → (commands : List Command)
        → All (λ (c : Command). is_rotate c.call ≡ false) commands → (s : State)
        → replay 1 (opening_with limit) commands ≡ Ok s
        → (lines : List StakeLine) → length lines ≤ CHANGES_MOST
        → HaveShares of_lusd (happened_by limit commands lines) s.fee_lusd }
{
    // odd: law called
    gains_are_shares();
    the_fees_cover_all();
}
