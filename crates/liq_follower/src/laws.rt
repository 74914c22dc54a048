//! Laws of the first bytes of a journal of the first generation. The functions here do nothing:
//! each is the place where the facts of its contract are proved.

ghost use Rattle.std.specs.Prelude.{◌≡◌, ◌≤◌, ◌+◌, ◌++◌, ◌∷◌, ℕ, List, take, length, get_or, None, true, false, Ok};
ghost use Rattle.liq_types.specs.declared.requests.Command.{Command};
ghost use Rattle.liq_types.specs.State.{State, opening, opening_with};
ghost use Rattle.liq_rule_step.specs.Step.{Allowed, after, ruling};
ghost use Rattle.liq_disk_header.specs.Layout.{generation_on, header_size, layout_on};
ghost use Rattle.liq_journal.specs.Records.{begins_whole};
ghost use Rattle.liq_journal.specs.Written.{Open, Written, first_fault, found_on, header_tests};
ghost use Rattle.liq_disk_pair.specs.Replay.{outcome, replay};
ghost use Rattle.liq_follower.specs.Fed.{AreDamagedAt, AreOver, EndsWhole, GoOn, IsNoRecord, IsRecordOf, LeadTo};
ghost use Rattle.liq_follower.specs.Fed.{begun_limit, has_header, is_turned};
ghost use Rattle.liq_core.specs.Core.{StandsFor};
ghost use Rattle.liq_follower.specs.Following.{IsFed, StandsBeforeLast};

use crate::follower::Follower;

/// The beginning of an undamaged journal of the first generation is itself neither damaged nor of a
/// later generation. Once it goes beyond the name of the version, it leads to the state after the
/// first commands of the journal, as many as are whole.
pub fn beginnings_lead_to_beginnings()
    ensures { (bytes rest : List ℕ) → (w : Written) → (s : State) → found_on true (bytes ++ rest)
        ≡ Open w
        → w.generation ≡ 1 → outcome w ≡ Ok s → 9 ≤ length bytes
        → (count : ℕ) × ((t : State)
        × (replay 1 (opening_with w.limit) (take count w.commands) ≡ Ok t) × LeadTo bytes t) }
{}

/// Bytes that hold no fault have no beginning that holds one.
pub fn faults_stay()
    ensures { (bytes rest : List ℕ) → GoOn (bytes ++ rest) → GoOn bytes }
{}

/// Bytes without a whole header behind an open gate lead to the opening, and behind a closed gate
/// to that under the greater limit. A whole header of the first generation is a whole journal
/// without records, if no test of it fails. One of which a test fails is damaged, unless it says a
/// later generation.
pub fn headers_lead_to_the_opening()
    ensures begun { (bytes : List ℕ) → has_header bytes ≡ false
        → LeadTo bytes (opening_with (begun_limit bytes)) }
    ensures shut { (bytes : List ℕ) → (get_or bytes 0 0 ≡ 1 → ⊥) → LeadTo bytes opening }
    ensures whole { (bytes : List ℕ) → get_or bytes 0 0 ≡ 1
        → length bytes ≡ header_size (layout_on bytes)
        → first_fault (header_tests (layout_on bytes) true bytes) ≡ None → generation_on bytes ≡ 1
        → EndsWhole bytes (opening_with (begun_limit bytes)) }
    ensures wrong { (bytes : List ℕ) → get_or bytes 0 0 ≡ 1
        → length bytes ≡ header_size (layout_on bytes)
        → (first_fault (header_tests (layout_on bytes) true bytes) ≡ None → ⊥)
        → (is_turned bytes ≡ true → ⊥)
        → AreDamagedAt 0 bytes }
{}

/// Behind a whole journal, bytes with which no whole record begins leave it at its state: none,
/// some of a record, or a gate that isn't open and whatever follows. A whole record leads on to the
/// state after its command, if the rules allow that. Where it has a fault, or its command is not
/// allowed, the bytes are damaged at its number.
pub fn records_lead_on()
    ensures rest { (front rest : List ℕ) → (s : State) → EndsWhole front s
        → begins_whole rest ≡ false
        → LeadTo (front ++ rest) s }
    ensures made { (front raw : List ℕ) → (s : State) → (c : Command) → EndsWhole front s
        → length raw ≡ 128
        → IsRecordOf (s.records + 1) raw c → ruling s c ≡ Allowed
        → EndsWhole (front ++ 1 ∷ raw) (after s c) }
    ensures refused { (front raw : List ℕ) → (s : State) → (c : Command) → EndsWhole front s
        → length raw ≡ 128
        → IsRecordOf (s.records + 1) raw c → (ruling s c ≡ Allowed → ⊥)
        → AreDamagedAt (s.records + 1) (front ++ 1 ∷ raw) }
    ensures fault { (front raw : List ℕ) → (s : State) → EndsWhole front s → length raw ≡ 128
        → IsNoRecord (s.records + 1) raw → AreDamagedAt (s.records + 1) (front ++ 1 ∷ raw) }
{}

/// A follower stands for the state to which the bytes lead that it was fed, where they are neither
/// damaged nor of a later generation. So it does not matter into which pieces they were cut.
pub fn followers_stand(follower: &Follower)
    ensures { (bytes : List ℕ) → (s : State) → IsFed bytes follower.now → LeadTo bytes s
        → StandsFor follower.now.core s }
{}

/// Where the bytes that a follower was fed are damaged or of a later generation, the last of them
/// is the first that shows it: all the others lead to a state. The follower stands for that.
pub fn ended_followers_stand(follower: &Follower)
    ensures { (bytes : List ℕ) → IsFed bytes follower.now → AreOver bytes
        → StandsBeforeLast bytes follower.now.core }
{}
