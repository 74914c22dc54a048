//! What holds of the definitions that the contracts cite. The functions here do nothing: each is
//! the place where the facts of its contract are proved.

ghost use Rattle.std.specs.Prelude.{◌≡◌, ℕ, ◌+◌, ◌≤◌, All, List, Ok, false, [], fold};
ghost use Rattle.liq_types.specs.declared.amounts.TheConstants.{ACCOUNTS};
ghost use Rattle.liq_types.specs.declared.requests.Command.{Command};
ghost use Rattle.liq_types.specs.Image.{IsLimit};
ghost use Rattle.liq_types.specs.PlainLedger.{over_accounts};
ghost use Rattle.liq_types.specs.State.{State, opening_with};
ghost use Rattle.liq_types.specs.Verbs.{is_rotate};
ghost use Rattle.liq_disk_pair.specs.Replay.{replay};
ghost use Rattle.liq_rewards.specs.Issued.{issued};
ghost use Rattle.liq_rewards.specs.Timed.{events_of, unshared_at, AreInOrder};
ghost use Rattle.liq_rewards.specs.Earning.{reward_at};
ghost use Rattle.liq_rewards.specs.Exact.{IsWithinAllowance, allowance_at};
ghost use Rattle.liq_rule_step.specs.Events.{events};
ghost use Rattle.liq_text_rewards.specs.Happened.{past_after, minute_after};

/// The rewards that are told of a journal's commands, which are replayed from the opening under a
/// limit, are exact shares but for the allowance that is told beside each, and with the unshared
/// units they are at most those that were issued.
pub fn rewards_of_commands_are_shares()
    ensures events { (limit : ℕ) → (commands : List Command)
        → events_of (past_after [] (opening_with limit) commands)
        ≡ events (opening_with limit) commands }
    ensures share { (limit : ℕ) → IsLimit limit → (commands : List Command) → (s : State)
        → replay 1 (opening_with limit) commands ≡ Ok s → (account : ℕ)
        → let past = past_after [] (opening_with limit) commands in
        IsWithinAllowance account s.minute past (reward_at account s.minute past)
        (allowance_at account s.minute past) }
    ensures units { (limit : ℕ) → IsLimit limit → (commands : List Command) → (s : State)
        → replay 1 (opening_with limit) commands ≡ Ok s
        → let past = past_after [] (opening_with limit) commands in
        over_accounts ACCOUNTS (λ account. reward_at account s.minute past)
        + unshared_at s.minute past
        ≤ issued s.minute }
{}

/// Along commands that are replayed the minute never falls.
pub fn minutes_never_fall()
    ensures order { (limit : ℕ) → (commands : List Command) → (s : State)
        → replay 1 (opening_with limit) commands ≡ Ok s
        → AreInOrder s.minute (past_after [] (opening_with limit) commands) }
    ensures last { (limit : ℕ) → (commands : List Command) → (s : State)
        → replay 1 (opening_with limit) commands ≡ Ok s → minute_after (opening_with limit) commands
        ≡ s.minute }
{}
