//! A command without its hint words, which change no reply.

ghost use Rattle.std.specs.Prelude.{◌≡◌};
ghost use Rattle.liq_types.specs.State.{State};
ghost use Rattle.liq_rule_step.specs.Rules.{call_events};
ghost use Rattle.liq_rule_step.specs.Step.{after, ruling};
ghost use Rattle.liq_rule_step.specs.Verbs.{unhinted, unhinted_call};

use liq_types::{Call, Command, HintWords};

/// The command without its own hint words. The rules say the same of it. Whoever makes commands
/// again that were made long ago leaves their words out: a place that they no longer name costs a
/// walk along the list.
pub fn unhinted(command: &Command) -> Command
    ensures same { result ≡ unhinted command.now }
    ensures ruling { (s : State) → ruling s result ≡ ruling s command.now }
    ensures after { (s : State) → after s result ≡ after s command.now }
    ensures events { (s : State) → call_events s result.call ≡ call_events s command.now.call }
{
    Command {
        call: unhinted_call(&command.call),
        ..*command
    }
}

fn unhinted_call(call: &Call) -> Call
    ensures { result ≡ unhinted_call call.now }
{
    let none = HintWords::NONE;
    match *call {
        Call::Open(account, coll, borrow, bound, _) => {
            Call::Open(account, coll, borrow, bound, none)
        }
        Call::Adjust(account, coll_in, coll_out, borrow, repay, bound, _) => {
            Call::Adjust(account, coll_in, coll_out, borrow, repay, bound, none)
        }
        Call::GainToTrove(account, _) => Call::GainToTrove(account, none),
        Call::Redeem(account, lusd, bound, _) => Call::Redeem(account, lusd, bound, none),
        call => call,
    }
}
