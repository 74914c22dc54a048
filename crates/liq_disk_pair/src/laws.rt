//! Laws of a pair of disks, over their bytes alone. The functions here do nothing: each is the
//! place where the facts of its contract are proved.

ghost use Rattle.std.specs.Prelude.{◌≡◌, ◌≤◌, ◌⊎◌, ◌+◌, All, List, ◌∷◌, [], ◌++◌, length, map, ℕ, Some, None, Ok, Bool, true, false};
ghost use Rattle.liq_types.specs.declared.requests.Call.TheVariants.{Rotate};
ghost use Rattle.liq_types.specs.declared.requests.Command.{Command};
ghost use Rattle.liq_types.specs.declared.requests.Request.{Request};
ghost use Rattle.liq_types.specs.Image.{IsLimit};
ghost use Rattle.liq_types.specs.Soundness.{first_unsound};
ghost use Rattle.liq_types.specs.State.{State, opening_with};
ghost use Rattle.liq_types.specs.Verbs.{is_rotate};
ghost use Rattle.liq_types.specs.WellFormed.{IsWellFormed};
ghost use Rattle.liq_rule_step.specs.Events.{events};
ghost use Rattle.liq_rule_step.specs.Image.{IsSameState, image};
ghost use Rattle.liq_rule_step.specs.Step.{Allowed, after, ruling, run};
ghost use Rattle.liq_rule_sound.specs.SoundState.{IsSoundState};
ghost use Rattle.liq_checkpoint.specs.Reading.{image_at};
ghost use Rattle.liq_checkpoint.specs.Spelling.{spelling};
ghost use Rattle.liq_journal.specs.declared.damage.Damage.{Damage};
ghost use Rattle.liq_journal.specs.Crash.{BeforeOrAfter, CreateLeaves, IsClosed, Stands, beginning, is_odd};
ghost use Rattle.liq_journal.specs.Opened.{OpenLeaves};
ghost use Rattle.liq_journal.specs.Written.{Absent, Damaged, Open, Written, and_then, found_on};
ghost use Rattle.liq_disk_pair.specs.declared.side.Side.{Side};
ghost use Rattle.liq_disk_pair.specs.Commands.{kept_behind, read_back};
ghost use Rattle.liq_disk_pair.specs.Kept.{IsKept, IsKeptWith, IsRotationOf, IsSettledFor};
ghost use Rattle.liq_disk_pair.specs.Pair.{commands_on, journal_on, limit_on, state_on};
ghost use Rattle.liq_disk_pair.specs.Past.{Fault, IsAsItStood, IsOfFailed, IsOfPrefix, IsOfRun, IsOfUnfinished};
ghost use Rattle.liq_disk_pair.specs.Replay.{base_of, outcome, replay};
ghost use Rattle.liq_disk_pair.specs.Sides.{beside, has_odd, on, other};
ghost use Rattle.liq_disk_pair.specs.Unfinished.{IsRecovered, LeftLeaves};

/// What is found on two disks decides the state for which they stand, or their first damage, and
/// the journal that counts.
pub fn what_is_found_decides()
    ensures state { (l r a b : List ℕ) → found_on true a ≡ found_on true l
        → found_on false b ≡ found_on false r → state_on a b ≡ state_on l r }
    ensures commands { (l r a b : List ℕ) → found_on true a ≡ found_on true l
        → found_on false b ≡ found_on false r → commands_on a b ≡ commands_on l r }
    ensures limit { (l r a b : List ℕ) → found_on true a ≡ found_on true l
        → found_on false b ≡ found_on false r → limit_on a b ≡ limit_on l r }
{}

/// The state for which two disks stand is sound, as the rules reach them: it is well formed, its
/// tables are in order, its image meets the rules beside its count of records, and what was
/// redistributed went to some stake.
pub fn states_on_disks_are_sound()
    ensures { (l r : List ℕ) → (s : State) → state_on l r ≡ Ok s → IsSoundState s }
{}

/// The state with which a journal begins is well formed, of the journal's generation and of the
/// limit of its version. The first generation begins with the opening under this limit, so its
/// outcome is the replay from there.
pub fn journals_begin_with_their_generation()
    ensures formed { (w : Written) → (s : State) → base_of w ≡ Ok s → IsWellFormed s }
    ensures generation { (w : Written) → (s : State) → base_of w ≡ Ok s
        → s.generation ≡ w.generation }
    ensures limit { (w : Written) → (s : State) → base_of w ≡ Ok s → s.limit ≡ w.limit }
    ensures first { (w : Written) → w.generation ≡ 1
        → outcome w ≡ replay 1 (opening_with w.limit) w.commands }
{}

/// An open journal leads to a state of its own generation, which is odd on the left disk and even
/// on the right one. So the side on which a pair is settled is that of the state's generation,
/// which is the first or a later one.
pub fn generations_have_their_sides()
    ensures state { (odd : Bool) → (bytes : List ℕ) → (w : Written) → (s : State)
        → found_on odd bytes ≡ Open w
        → outcome w ≡ Ok s → s.generation ≡ w.generation }
    ensures parity { (odd : Bool) → (bytes : List ℕ) → (w : Written) → found_on odd bytes ≡ Open w
        → odd ≡ is_odd w.generation }
    ensures settled { (side : Side) → (l r : List ℕ) → (s : State) → IsSettledFor side l r s
        → has_odd side ≡ is_odd s.generation }
    ensures from_one { (side : Side) → (l r : List ℕ) → (s : State) → IsSettledFor side l r s
        → 1 ≤ s.generation }
{}

/// An open journal leads to a state of the limit of its version, which is one of two: no record
/// changes it. So it is with two disks, and their state has the limit of the journal that counts.
pub fn journals_keep_their_limit()
    ensures state { (odd : Bool) → (bytes : List ℕ) → (w : Written) → (s : State)
        → found_on odd bytes ≡ Open w
        → outcome w ≡ Ok s → s.limit ≡ w.limit }
    ensures pair { (l r : List ℕ) → (s : State) → state_on l r ≡ Ok s → s.limit ≡ limit_on l r }
    ensures two { (l r : List ℕ) → IsLimit (limit_on l r) }
{}

/// The commands of two disks lead to the state for which they stand. Where that is of generation 1
/// they lead there from the opening under the limit of the journal that counts. A later generation
/// begins with its checkpoint, from which they lead there, and the commands before it are gone.
pub fn commands_lead_to_the_state()
    ensures first { (l r : List ℕ) → (s : State) → state_on l r ≡ Ok s → s.generation ≡ 1
        → replay 1 (opening_with (limit_on l r)) (commands_on l r) ≡ Ok s }
    ensures begun { (l r : List ℕ) → (s : State) → (w : Written) → state_on l r ≡ Ok s
        → journal_on l r ≡ Some w
        → (base : State) × (base_of w ≡ Ok base) × (replay 1 base (commands_on l r) ≡ Ok s) }
{}

/// A replay that ends in a state goes on to the next command that this state accepts.
pub fn replays_go_on()
    ensures { (s end : State) → (commands : List Command) → (c : Command) → replay 1 s commands
        ≡ Ok end → ruling end c ≡ Allowed → replay 1 s (commands ++ c ∷ []) ≡ Ok (after end c) }
{}

/// The commands that are found on a disk are as they were read back, and none is a rotation. A
/// command is ruled on as it is read back, and leads to the same state with the same events.
pub fn commands_are_read_back()
    ensures found { (odd : Bool) (bytes : List ℕ) (w : Written) → found_on odd bytes ≡ Open w
        → All (λ (c : Command). (read_back c ≡ c) × (is_rotate c.call ≡ false)) w.commands }
    ensures ruling { (s : State) (c : Command) → ruling s (read_back c) ≡ ruling s c }
    ensures after { (s : State) (c : Command) → after s (read_back c) ≡ after s c }
    ensures events { (s : State) (cs : List Command) → events s (map read_back cs) ≡ events s cs }
{}

/// Where no rotation is accepted, the commands stand behind those that were held, as they are read
/// back. With a rotation only those behind it stand.
pub fn commands_stand_behind()
    ensures none { (held cs : List Command) → All (λ (c : Command). is_rotate c.call ≡ false) cs
        → kept_behind held cs ≡ held ++ map read_back cs }
    ensures rotated { (held before behind : List Command) (c : Command) → c.call ≡ Rotate
        → kept_behind held (before ++ c ∷ behind) ≡ kept_behind [] behind }
{}

/// A settled pair is kept.
pub fn settled_pairs_are_kept()
    ensures { (side : Side) → (l r : List ℕ) → (s : State) → IsSettledFor side l r s
        → IsKept l r s }
{}

/// A pair that is kept for a state is kept for each state that is the same, in its image and its
/// count of records.
pub fn same_states_are_kept()
    ensures { (l r : List ℕ) → (s t : State) → IsKept l r s → IsSameState s t → IsWellFormed t
        → IsKept l r t }
{}

/// A stop in an append on a settled pair leaves one that is kept for the state, with the same
/// commands, or for the state after the command, with this one behind them; once the record stands the pair is settled for that one.
pub fn appends_keep_pairs()
    ensures kept { (side : Side) → (l r a b : List ℕ) → (s : State) → (c : Command)
        → (settled : IsSettledFor side l r s) → ruling s c ≡ Allowed
        → beside side a b ≡ beside side l r
        → BeforeOrAfter (has_odd side) settled.written c (on side a b)
        → IsKeptWith a b s (commands_on l r)
        ⊎ IsKeptWith a b (after s c) (commands_on l r ++ c ∷ []) }
    ensures settled { (side : Side) → (l r a b : List ℕ) → (s : State) → (c : Command)
        → (settled : IsSettledFor side l r s) → ruling s c ≡ Allowed
        → beside side a b ≡ beside side l r
        → Stands (has_odd side) (on side a b) (and_then settled.written c)
        → IsSettledFor side a b (after s c) }
{}

/// A journal of the next generation is the state's rotation, if its checkpoint spells the image
/// after a rotation that the state accepts and is read back as this image, which breaks no rule.
pub fn checkpoints_make_rotations()
    ensures { (s : State) → (c : Command) → (checkpoint : List ℕ) → IsWellFormed s
        → 1 ≤ s.generation
        → c.call ≡ Rotate → ruling s c ≡ Allowed → checkpoint ≡ spelling (image (after s c))
        → image_at (length checkpoint) checkpoint ≡ Ok (image (after s c))
        → first_unsound (image (after s c)) 0 ≡ None
        → IsRotationOf s (beginning (s.generation + 1) checkpoint) c }
{}

/// A stop in a rotation of a settled pair, which creates the next generation on the other disk,
/// leaves one that is kept for the state, with the same commands, or for the state after the
/// rotation, with none; once that generation
/// stands the pair is settled for the state after it, on the other side.
pub fn rotations_keep_pairs()
    ensures kept { (side : Side) → (l r a b : List ℕ) → (s : State) → (c : Command) → (w : Written)
        → IsSettledFor side l r s → IsRotationOf s w c → on side a b ≡ on side l r → w.commands ≡ []
        → CreateLeaves (has_odd (other side)) (beside side l r) w (beside side a b)
        → IsKeptWith a b s (commands_on l r) ⊎ IsKeptWith a b (after s c) [] }
    ensures settled { (side : Side) → (l r a b : List ℕ) → (s : State) → (c : Command)
        → (w : Written)
        → IsSettledFor side l r s → IsRotationOf s w c → on side a b ≡ on side l r
        → Stands (has_odd (other side)) (beside side a b) w
        → IsSettledFor (other side) a b (after s c) }
{}

/// Of a pair that is kept for a state an opening leaves, at each moment, one that is kept for it,
/// with the same commands; or for it after the command that the pair held unfinished, with this one
/// more: a record, or a rotation, with which none are left.
pub fn openings_recover_pairs()
    ensures { (l r a b : List ℕ) → (s : State) → IsKept l r s → LeftLeaves l r a
        → OpenLeaves false r b → IsRecovered l r s a b }
{}

/// The state for which a pair is settled is the one that the next opening has, on both sides and of
/// whatever generation: the pair stands for no other, and what the opening leaves of it, at each
/// moment, is settled for this state on this side.
pub fn settled_pairs_are_opened_again()
    ensures state { (side : Side) → (l r : List ℕ) → (s t : State) → IsSettledFor side l r s
        → state_on l r ≡ Ok t
        → IsSameState t s }
    ensures settled { (side : Side) → (l r a b : List ℕ) → (s : State) → IsSettledFor side l r s
        → LeftLeaves l r a → OpenLeaves false r b → IsSettledFor side a b s }
{}

/// A damaged image of a run is the disk as it stood when the run began, or so with another byte at
/// place 0, where no shut gate was: a run writes nothing that is damaged.
pub fn runs_damage_no_disk()
    ensures { (side : Side) → (l r : List ℕ) → (s : State) → (requests : List Request)
        → (fault : Fault)
        → (image : List ℕ) → (damage : Damage) → IsOfRun side l r s requests fault image
        → found_on (has_odd side) image ≡ Damaged damage → IsAsItStood (on side l r) image }
{}

/// On a disk that was closed when a run began, too short for a header or with a 0 at place 0, a
/// journal is open in an image only where that stands for a state of the run, whatever a rotation
/// that was cut short left behind the gate.
pub fn closed_disks_open_for_a_state_of_the_run()
    ensures { (side : Side) → (l r : List ℕ) → (s : State) → (requests : List Request)
        → (fault : Fault)
        → (image : List ℕ) → IsClosed (on side l r) → IsOfRun side l r s requests fault image
        → (found_on (has_odd side) image ≡ Absent)
        ⊎ (IsOfPrefix side s requests image
        ⊎ (IsOfUnfinished side l r s image ⊎ IsOfFailed side (run s requests).0 fault image)) }
{}
