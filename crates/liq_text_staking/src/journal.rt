//! The answer to stakers, beside a journal's commands.

ghost use Rattle.std.specs.Prelude.{◌≡◌, ◌≤◌, All, false, Err, length, IfOk, OnOk};
ghost use Rattle.liq_types.specs.declared.requests.Command.{Command};
ghost use Rattle.liq_types.specs.Image.{IsLimit};
ghost use Rattle.liq_types.specs.State.{opening_with};
ghost use Rattle.liq_fees.specs.declared.changes.TheConstants.{CHANGES_MOST};
ghost use Rattle.liq_journal.specs.declared.damage.Damage.{Damage};
ghost use Rattle.liq_types.specs.Verbs.{is_rotate};
ghost use Rattle.liq_disk_pair.specs.Replay.{replay};
ghost use Rattle.liq_text_staking.specs.Staked.{staked_text};

use crate::answering::answer_stakers;
use crate::paid::Paid;
use liq_disk_replay::{ReplayFault, replay_commands};
use liq_fees::{CHANGES_MOST, StakeLine};
use liq_types::Command;
use std::alloc::Global;

/// The text that answers stakers on these lines, for a journal's commands, which are replayed from
/// the opening under the journal's limit: a reply for each line, a line
/// `ACCOUNT STAKE COLL LUSD ALLOW` for each account with an accepted change, ascending, and a line
/// `unshared COLL LUSD`. A line's change is made behind its record, and each record's fee is shared
/// by those who have a stake by then.
///
/// [`ReplayFault::Damaged`] comes exactly where the replay does not accept a command, where there
/// is memory.
pub fn staked(
    alloc: Global,
    limit: u64,
    commands: &[Command],
    lines: &[StakeLine],
) -> Result<Vec<u8>, ReplayFault>
    requires limit { IsLimit limit }
    // The commands of one generation hold no rotation.
    requires no_rotation { All (λ (c : Command). is_rotate c.call ≡ false) commands.now }
    requires few { length lines.now ≤ CHANGES_MOST }
    ensures text { IfOk result (λ text. text.items ≡ staked_text limit commands.now lines.now) }
    ensures damaged { (damage : Damage) → result ≡ Err (ReplayFault.Damaged damage)
        → replay 1 (opening_with limit) commands.now ≡ Err damage }
    ensures whole { OnOk result ((damage : Damage)
        → replay 1 (opening_with limit) commands.now ≡ Err damage → ⊥) }
{
    let mut paid = Paid::new(alloc);
    replay_commands(alloc, limit, commands, &mut paid)?;
    Ok(answer_stakers(alloc, paid.fees(), lines)?)
}
