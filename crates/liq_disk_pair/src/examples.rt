//! Worked examples: what two disks stand for, and what a replay comes to. The functions here do
//! nothing; each is the place where the facts of its contract are proved.

ghost use Rattle.std.specs.Prelude.{◌≡◌, List, [], ◌∷◌, replicate, Ok, Err};
ghost use Rattle.liq_types.specs.declared.amounts.TheConstants.{LIM, LIM_OF_VERSION_1};
ghost use Rattle.liq_types.specs.declared.requests.Command.{Command};
ghost use Rattle.liq_types.specs.State.{State, opening, opening_with, started};
ghost use Rattle.liq_rule_step.specs.Image.{image};
ghost use Rattle.liq_rule_step.specs.Step.{after};
ghost use Rattle.liq_checkpoint.specs.Spelling.{name, spelling};
ghost use Rattle.liq_journal.specs.Crash.{beginning};
ghost use Rattle.liq_journal.specs.declared.damage.What.TheVariants as What;
ghost use Rattle.liq_disk_pair.specs.declared.side.Side.TheVariants as Side;
ghost use Rattle.liq_disk_pair.specs.Examples.{begun_by_version_1, early, fund, open_with, price_of_nothing, rotate, rotated_at, rotated_with, unnamed};
ghost use Rattle.liq_disk_pair.specs.Kept.{IsRotationOf};
ghost use Rattle.liq_disk_pair.specs.Pair.{Holding, commands_on, journal_commands, limit_on, pair_journal, pair_state, state_on};
ghost use Rattle.liq_disk_pair.specs.Replay.{base_of, replay};

/// Two empty disks stand for the opening state, under the greater limit, and have no commands, and
/// so do two whose bytes are fewer than a header's.
pub fn empty_disks_example()
    ensures empty { state_on [] [] ≡ Ok opening }
    ensures none { commands_on [] [] ≡ [] }
    ensures short { state_on (1 ∷ 76 ∷ []) (1 ∷ []) ≡ Ok opening }
    ensures limit { limit_on [] [] ≡ LIM }
{}

/// A disk's first damage is told with its side, the left one's first.
pub fn damaged_disks_example()
    ensures left { state_on unnamed [] ≡ Err (Side.Left, record { index = 0; what = What.Form 1 }) }
    ensures right { state_on [] unnamed ≡ Err (
      Side.Right,
      record {
        index = 0;
        what = What.Form 1;
      },
    ) }
    ensures both { state_on unnamed unnamed ≡ Err (
      Side.Left,
      record {
        index = 0;
        what = What.Form 1;
      },
    ) }
{}

/// Of two open disks the one of the greater generation counts, on whichever side it is.
pub fn generations_example()
    ensures left { (s t : State) → pair_state (Holding 3 s) (Holding 2 t) ≡ Ok s }
    ensures right { (s t : State) → pair_state (Holding 1 s) (Holding 2 t) ≡ Ok t }
    ensures left_commands { (cs ds : List Command)
        → journal_commands (pair_journal (open_with 3 cs) (open_with 2 ds)) ≡ cs }
    ensures right_commands { (cs ds : List Command)
        → journal_commands (pair_journal (open_with 1 cs) (open_with 2 ds)) ≡ ds }
{}

/// The first generation begins with the opening under the limit of its version. A later one has its
/// damage at the place in the disk where its checkpoint is none: at the checkpoint's first byte
/// where there is no name, and behind the name where nothing follows. The header of version 1 is
/// shorter by 8 bytes.
pub fn checkpoints_example()
    ensures first { base_of (beginning 1 []) ≡ Ok opening }
    ensures missing { base_of (beginning 2 []) ≡ Err (record { index = 0; what = What.Form 65 }) }
    ensures misnamed { base_of (beginning 2 (replicate 8 0))
        ≡ Err (record { index = 0; what = What.Form 65 }) }
    ensures cut { base_of (beginning 2 (name LIM))
        ≡ Err (record { index = 0; what = What.Form 73 }) }
    ensures first_of_version_1 { base_of (begun_by_version_1 1 [])
        ≡ Ok (opening_with LIM_OF_VERSION_1) }
    ensures missing_in_version_1 { base_of (begun_by_version_1 2 [])
        ≡ Err (record { index = 0; what = What.Form 57 }) }
{}

/// A whole checkpoint begins a state, if its image is of the journal's generation and limit and
/// breaks no rule, as the price 0 does; else it is damaged at its first byte.
pub fn whole_checkpoints_example()
    ensures begins { base_of (beginning 2 (spelling (rotated_at 1000000000)))
        ≡ Ok (started (rotated_at 1000000000)) }
    ensures another { base_of (beginning 4 (spelling (rotated_at 1000000000)))
        ≡ Err (record { index = 0; what = What.Form 65 }) }
    ensures unsound { base_of (beginning 2 (spelling (rotated_at 0)))
        ≡ Err (record { index = 0; what = What.Form 65 }) }
    ensures foreign { base_of (beginning 2 (spelling (rotated_with LIM_OF_VERSION_1 1000000000)))
        ≡ Err (record { index = 0; what = What.Form 65 }) }
    ensures foreign_to_version_1 { base_of (begun_by_version_1 2 (spelling (rotated_at 1000000000)))
        ≡ Err (record { index = 0; what = What.Form 57 }) }
    ensures begins_version_1 { base_of (begun_by_version_1 2
        (spelling (rotated_with LIM_OF_VERSION_1 1000000000)))
        ≡ Ok (started (rotated_with LIM_OF_VERSION_1 1000000000)) }
{}

/// The opening has a rotation: the journal of generation 2 with the image after it as its
/// checkpoint. It is the same one under the lesser limit, which a rotation leaves behind.
pub fn rotation_example()
    ensures rotated { IsRotationOf opening (beginning 2 (spelling (image (after opening rotate))))
        rotate }
    ensures from_version_1 { IsRotationOf (opening_with LIM_OF_VERSION_1)
        (beginning 2 (spelling (image (after opening rotate)))) rotate }
{}

/// An accepted command; one that comes again, as the second record; one that is out of turn, as the
/// first; and one that is refused by its verb, as the second.
pub fn replays_example()
    ensures accepted { replay 1 opening (fund ∷ []) ≡ Ok (after opening fund) }
    ensures repeated { replay 1 opening (fund ∷ fund ∷ [])
        ≡ Err (record { index = 2; what = What.Replay 0 }) }
    ensures early { replay 1 opening (early ∷ [])
        ≡ Err (record { index = 1; what = What.Replay 70 }) }
    ensures refused { replay 1 opening (fund ∷ price_of_nothing ∷ [])
        ≡ Err (record { index = 2; what = What.Replay 10 }) }
{}
