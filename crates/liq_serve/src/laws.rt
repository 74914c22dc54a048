//! Laws of the top call. The functions here do nothing: they are the place where the facts of their
//! contracts are proved.

ghost use Rattle.std.specs.Prelude.{◌≡◌, ◌≢◌, ◌⊎◌, Contains, List, ℕ, Ok, Some, get_or, true};
ghost use Rattle.liq_types.specs.declared.requests.Command.{Command};
ghost use Rattle.liq_types.specs.declared.requests.Request.TheVariants.{Do};
ghost use Rattle.liq_types.specs.State.{State, opening};
ghost use Rattle.liq_journal.specs.Written.{Absent, found_on};
ghost use Rattle.liq_disk_pair.specs.Commands.{read_back};
ghost use Rattle.liq_follower.specs.Fed.{LeadTo};
ghost use Rattle.liq_text.specs.Spelling.{Spells};
ghost use Rattle.liq_disk_pair.specs.Kept.{IsKept};
ghost use Rattle.liq_disk_pair.specs.Pair.{state_on};
ghost use Rattle.liq_word_line.specs.declared.words.Word.{Word};
ghost use Rattle.liq_word_line.specs.Words.{Ask};
ghost use Rattle.liq_serve.specs.ByStatus.{ByStatus, statuses_of};
ghost use Rattle.liq_serve.specs.Calm.{IsComplete};
ghost use Rattle.liq_word_exit.specs.Outside.{Outside};
ghost use Rattle.liq_serve.specs.Top.{Ends};
ghost use Rattle.liq_serve.specs.Twice.{AreBehind, AuditsAnswered, FollowOn};

use liq_disk_pair::laws::{commands_lead_to_the_state, journals_keep_their_limit};
use liq_follower::laws::{faults_stay, headers_lead_to_the_opening};
use liq_outside::{Disk, Sink, Source};

/// Whatever the words are, the exit status by itself says whose count of faults rose, and whose did
/// not; and for both disks time went on. It follows from the clause of the top call.
pub fn statuses_have_causes<S: Source, K: Sink, D: Disk>()
    ensures { (before after : Outside S K D) (status : ℕ) (words : List (List ℕ))
        → Ends S.at K.at D.at before after status words
        → ByStatus S.at K.at D.at before after status }
{}

/// Each word comes to one of its own statuses. It follows from the clause of the top call.
pub fn words_have_their_statuses<S: Source, K: Sink, D: Disk>()
    ensures { (before after : Outside S K D) (status : ℕ) (words : List (List ℕ)) (one : Word)
        → Ends S.at K.at D.at before after status words
        → Ask words one → Contains (statuses_of one) status }
{}

/// Where nothing is wrong with lines, streams and disks a word is done, unless there was no memory;
/// and what is wrong with a journal that is followed is told. It follows from the clause of the top
/// call.
pub fn calm_ends_are_done<S: Source, K: Sink, D: Disk>()
    ensures { (before after : Outside S K D) (status : ℕ) (words : List (List ℕ))
        → Ends S.at K.at D.at before after status words
        → IsComplete S.at K.at D.at before after status words }
{
    // odd: law called
    commands_lead_to_the_state();
    journals_keep_their_limit();
    faults_stay();
}

/// Two runs, one after the other, over disks that were kept before the first: whatever its status,
/// the second begins with the state after the requests that the first answered, or, where a disk
/// met a fault, after one command more, and its own requests lead on from there. So what either
/// acknowledged is in the state. It may begin with what is read of the first one's disks; or, if
/// nothing was pending before that, with two disks that hold any images which a crash at its end
/// may leave.
pub fn runs_follow_on<S: Source, K: Sink, D: Disk>()
    ensures { (before middle again after : Outside S K D) (status later : ℕ)
        (words others : List (List ℕ))
        → Ends S.at K.at D.at before middle status words
        → Ends S.at K.at D.at again after later others
        → Ask words Word.Run → Ask others Word.Run
        → (l r a b : List ℕ) (start : State)
        → (D.at before.left).seen ≡ Some l → (D.at before.right).seen ≡ Some r
        → state_on l r ≡ Ok start → IsKept l r start
        → (D.at again.left).seen ≡ Some a → (D.at again.right).seen ≡ Some b
        → AreBehind S.at K.at D.at before middle l r a b
        → FollowOn S.at K.at D.at before middle again after status later
        l r a b start }
{}

/// An audit behind a run tells of the commands that were answered: where the run met no disk's
/// fault, and its disks stand for a state of the first generation then, the review is of the
/// commands that stood there before and, behind them, of those that the run accepted.
pub fn audits_are_of_what_was_answered<S: Source, K: Sink, D: Disk>()
    ensures { (before middle again after : Outside S K D) (status later : ℕ)
        (words others : List (List ℕ))
        → Ends S.at K.at D.at before middle status words
        → Ends S.at K.at D.at again after later others
        → Ask words Word.Run → Ask others Word.Audit → (status ≢ 5)
        → (l r a b : List ℕ) (start : State)
        → (D.at before.left).seen ≡ Some l → (D.at before.right).seen ≡ Some r
        → state_on l r ≡ Ok start
        → (D.at middle.left).seen ≡ Some a → (D.at middle.right).seen ≡ Some b
        → (D.at again.left).seen ≡ Some a → (D.at again.right).seen ≡ Some b
        → ((state : State) → state_on a b ≡ Ok state → state.generation ≡ 1)
        → AuditsAnswered S.at K.at D.at before middle again after status later l r start }
{}

/// A command that a line spells stands on the disks as it was spelled: a record has each hint word
/// that a line can have. So where a source told its lines, the commands that stand behind those of
/// the start are just the ones that were accepted.
pub fn spelled_commands_are_read_back()
    ensures { (line : List ℕ) (c : Command) → Spells line (Do c) → read_back c ≡ c }
{}

/// Where two disks stand for a state of the first generation, the left one's bytes are followed to
/// this state. Only where no journal is open, and an open gate stands before a header that isn't
/// whole, is nothing said: these stand for the opening.
pub fn left_disks_are_followed()
    ensures { (l r : List ℕ) (s : State) → state_on l r ≡ Ok s → s.generation ≡ 1
        → LeadTo l s ⊎ ((s ≡ opening) × (found_on true l ≡ Absent) × (get_or l 0 0 ≡ 1)) }
{
    // odd: law called
    headers_lead_to_the_opening();
}
