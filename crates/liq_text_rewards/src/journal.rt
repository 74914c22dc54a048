//! The rewards beside a journal's commands.

ghost use Rattle.std.specs.Prelude.{◌≡◌, All, false, Err, IfOk, OnOk};
ghost use Rattle.liq_types.specs.declared.requests.Command.{Command};
ghost use Rattle.liq_types.specs.Image.{IsLimit};
ghost use Rattle.liq_types.specs.State.{opening_with};
ghost use Rattle.liq_journal.specs.declared.damage.Damage.{Damage};
ghost use Rattle.liq_types.specs.Verbs.{is_rotate};
ghost use Rattle.liq_disk_pair.specs.Replay.{replay};
ghost use Rattle.liq_text_rewards.specs.Rewarded.{rewarded_text};

use crate::followed::followed;
use crate::happened::{Happened, minute_of};
use crate::owners::owners;
use crate::text::rewards_text;
use liq_disk_replay::{ReplayFault, replay_commands};
use liq_rewards::TagLine;
use liq_types::Command;
use std::alloc::Global;

/// The text that tells rewards on these lines, for a journal's commands, which are replayed from
/// the opening under the journal's limit: a reply for each line, a line
/// `ACCOUNT REWARD ALLOW KEPT FRONT GIVEN` for each account with an own operation, ascending, and a
/// line `issued I unshared U`. Units are shared by those who have a deposit by then, and those of
/// the last minutes by those who have one in the end.
///
/// [`ReplayFault::Damaged`] comes exactly where the replay does not accept a command, where there
/// is memory.
pub fn rewarded(
    alloc: Global,
    limit: u64,
    commands: &[Command],
    lines: &[TagLine],
) -> Result<Vec<u8>, ReplayFault>
    requires limit { IsLimit limit }
    // The commands of one generation hold no rotation.
    requires no_rotation { All (λ (c : Command). is_rotate c.call ≡ false) commands.now }
    ensures text { IfOk result (λ text. text.items ≡ rewarded_text limit commands.now lines.now) }
    ensures damaged { (damage : Damage) → result ≡ Err (ReplayFault.Damaged damage)
        → replay 1 (opening_with limit) commands.now ≡ Err damage }
    ensures whole { OnOk result ((damage : Damage) → replay 1 (opening_with limit) commands.now
        ≡ Err damage → ⊥) }
{
    let mut happened = Happened::new(alloc);
    let protocol = replay_commands(alloc, limit, commands, &mut happened)?;
    let rewards = followed(alloc, happened.events(), minute_of(&protocol))?;
    let accounts = owners(alloc, happened.events())?;
    let mut text = Vec::new(alloc);
    rewards_text(lines, &rewards, &accounts, &mut text)?;
    Ok(text)
}
