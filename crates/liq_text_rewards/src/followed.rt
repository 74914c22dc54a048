//! Rewards along the events of a journal's commands, each in its minute.

ghost use Rattle.std.specs.Prelude.{◌≡◌, ◌≤◌, ◌∷◌, List, IfOk, OnOk};
ghost use Rattle.liq_rewards.specs.Timed.{Timed};
ghost use Rattle.liq_rewards.specs.Kept.{IsKeptOf, MayHappen};
ghost use Rattle.liq_text_rewards.specs.Telling.{CanBeFollowed, past_in, owner_in};

use liq_rewards::Rewards;
use liq_types::{NoMemory, PoolEvent};
use std::alloc::Global;

/// The rewards at a last minute, after all of these events, each behind its minute.
pub(crate) fn followed(
    alloc: Global,
    notes: &[(u64, PoolEvent)],
    end: u64,
) -> Result<Rewards, NoMemory>
    requires { CanBeFollowed notes.now end }
    ensures kept { IfOk result (λ rewards. IsKeptOf rewards (past_in notes.now)) }
    ensures minute { IfOk result (λ rewards. rewards.minute ≡ end) }
{
    let mut rewards = Rewards::new(alloc);
    for (then, event) in notes {
        follow(&mut rewards, *then, event)?;
    }
    rewards.to_minute(end);
    Ok(rewards)
}

/// One event more, in this minute.
fn follow(rewards: &mut Rewards, minute: u64, event: &PoolEvent) -> Result<(), NoMemory>
    requires order { rewards.old.minute ≤ minute }
    requires lawful { ∥ ((past : List Timed) × IsKeptOf rewards.old past
        × MayHappen (record { minute = minute; event = event.now }) past) ∥₁ }
    ensures kept { OnOk result ((past : List Timed) → IsKeptOf rewards.old past
        → MayHappen (record { minute = minute; event = event.now }) past
        → IsKeptOf rewards.new (record { minute = minute; event = event.now } ∷ past)) }
    ensures minute { OnOk result (rewards.new.minute ≡ minute) }
{
    rewards.reserve(owner(event))?;
    rewards.to_minute(minute);
    rewards.event(event);
    Ok(())
}

/// Whose own operation it is.
fn owner(event: &PoolEvent) -> Option<u32>
    ensures { result ≡ owner_in event.now }
{
    match *event {
        PoolEvent::Own { account, .. } => Some(account),
        PoolEvent::Offset { .. } => None,
    }
}
