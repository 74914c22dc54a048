//! Laws of the disks that a word leaves. The functions here do nothing: they are the places where
//! the facts of their contracts are proved.

ghost use Rattle.std.specs.Prelude.{◌≡◌, ◌≤◌, ◌<◌, ◌+◌, List, ℕ, Ok, length, take};
ghost use Rattle.liq_types.specs.declared.requests.Command.{Command};
ghost use Rattle.liq_types.specs.declared.requests.Request.{Request};
ghost use Rattle.liq_types.specs.State.{State};
ghost use Rattle.liq_rule_step.specs.Image.{IsSameState};
ghost use Rattle.liq_disk_pair.specs.Kept.{IsKept};
ghost use Rattle.liq_disk_pair.specs.Pair.{state_on};
ghost use Rattle.liq_disk_pair.specs.Past.{Fault};
ghost use Rattle.liq_word_exit.specs.Answered.{HoldsAnswered, IsKeptBehind};
ghost use Rattle.liq_word_exit.specs.Output.{lines};

/// Disks that are kept for a state are kept for the one for which they stand, and it is the same in
/// image and count of records. So a run that begins where another ended begins with what is said of
/// that one's end.
pub fn kept_disks_begin_again()
    ensures { (l r : List ℕ) → (s t : State) → IsKept l r s → state_on l r ≡ Ok t → IsSameState s t
        × IsKept l r t }
{}

/// Where a byte is out behind the replies to the first m requests, the next one was answered too.
/// What a stop leaves then has it: both disks are kept for the state after the first n, which are
/// more than m, and their commands stand on them.
pub fn answered_is_kept()
    ensures { (begun : List Command) (start : State) (requests : List Request) (fault : Fault)
        (before held m : ℕ) (a b : List ℕ)
        → HoldsAnswered begun start requests fault before held a b → m < length requests
        → before + length (lines start (take m requests)) < held
        → (n : ℕ) × (m < n) × (n ≤ length requests)
        × IsKeptBehind begun start requests fault before n a b }
{}
