//! What holds of every protocol: that it is sound, for which states it stands, and what its
//! depositors are promised. The functions here do nothing: each is the place where the facts of its
//! contract are proved.

ghost use Rattle.std.specs.Prelude.{◌≡◌, ℕ, List};
ghost use Rattle.liq_types.specs.declared.requests.Request.{Request};
ghost use Rattle.liq_types.specs.Image.{IsLimit};
ghost use Rattle.liq_types.specs.Soundness.{IsSoundImage};
ghost use Rattle.liq_types.specs.State.{State, opening_with};
ghost use Rattle.liq_order.specs.Order.{trove_order};
ghost use Rattle.liq_stability.specs.Promise.{IsWithinAllowance};
ghost use Rattle.liq_core.specs.Core.{StandsFor, state_of};
ghost use Rattle.liq_rule_step.specs.Events.{events};
ghost use Rattle.liq_rule_step.specs.Image.{IsSameState};
ghost use Rattle.liq_rule_sound.specs.SoundState.{IsSoundState};
ghost use Rattle.liq_rule_step.specs.Step.{accepted, run};

use crate::engine::Protocol;

/// Every protocol is sound: its image meets all rules of an image, beside the records, and its
/// tables are in form.
pub fn protocols_are_sound(protocol: &Protocol)
    ensures { IsSoundImage protocol.now.image protocol.now.records }
{
    // odd: field read
    let _ = &protocol.records;
}

/// Every protocol stands for the state that begins with its image and has its records. So what its
/// calls say of each state for which it stands is said of one at least.
pub fn protocols_stand(protocol: &Protocol)
    ensures { StandsFor protocol.now (state_of protocol.now) }
{
    // odd: field read
    let _ = &protocol.records;
}

/// The list of every protocol is the trove order of each state for which it stands. So no hint that
/// was ever given can be seen in it.
pub fn lists_stand(protocol: &Protocol)
    ensures { (s : State) → StandsFor protocol.now s → protocol.now.list ≡ trove_order s }
{
    // odd: field read
    let _ = &protocol.records;
}

/// Every protocol stands for a sound state: the one that begins with its image and has its records.
/// So all that is said of sound states is said of it, whatever it has been asked.
pub fn protocols_are_sound_states(protocol: &Protocol)
    ensures { IsSoundState (state_of protocol.now) }
{
    // odd: field read
    let _ = &protocol.records;
}

/// Whatever requests lead from the opening, under either limit, to this protocol, every account has
/// its exact share of what their accepted commands did to the Stability Pool: its balance and all
/// that it gained are at most that share, and short of it by at most the allowance. How the
/// protocol came to be does not matter: it is enough that the run of the requests gives its image
/// and its records, as where it begins again from a journal.
pub fn depositors_get_their_shares(protocol: &Protocol)
    ensures same { (limit : ℕ) → IsLimit limit → (requests : List Request)
        → IsSameState (state_of protocol.now) (run (opening_with limit) requests).0
        → (account : ℕ) → IsWithinAllowance (state_of protocol.now) account
        (events (opening_with limit) (accepted (opening_with limit) requests)) }
    ensures stands { (limit : ℕ) → IsLimit limit → (requests : List Request)
        → StandsFor protocol.now (run (opening_with limit) requests).0
        → (account : ℕ) → IsWithinAllowance (state_of protocol.now) account
        (events (opening_with limit) (accepted (opening_with limit) requests)) }
{
    // odd: law called
    protocols_stand(protocol);
}
