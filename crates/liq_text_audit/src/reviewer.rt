//! The review of a list of commands.

ghost use Rattle.std.specs.Prelude.{◌≡◌, ◌⊎◌, ◌<◌, ◌^◌, ℕ, All, false, Ok, Err, Some, None, IfOk, IfErr, OnOk, count_by, length};
ghost use Rattle.std.specs.List.{AllByRecursion};
ghost use Rattle.liq_types.specs.declared.requests.Command.{Command};
ghost use Rattle.liq_types.specs.Image.{IsLimit};
ghost use Rattle.liq_types.specs.PlainLedger.{gains_paid_to};
ghost use Rattle.liq_types.specs.State.{State, opening_with};
ghost use Rattle.liq_audit.specs.Auditable.{IsAuditable, EnclosesShare, limit_passed};
ghost use Rattle.liq_core.specs.Core.{StandsFor};
ghost use Rattle.liq_rule_step.specs.Events.{events};
ghost use Rattle.liq_types.specs.Verbs.{is_rotate};
ghost use Rattle.liq_disk_pair.specs.Replay.{replay};
ghost use Rattle.liq_text_audit.specs.Engine.{Pays, rows_of};
ghost use Rattle.liq_text_audit.specs.Paid.{paid_table};
ghost use Rattle.liq_text_audit.specs.Reviewed.{reviewed};
ghost use Rattle.liq_text_audit.specs.Shown.{is_within};

use crate::engine::engine_rows;
use crate::fault::ReviewFault;
use crate::limits::limit_gains;
use crate::paid::gains_paid;
use crate::replaying::replayed;
use crate::shown::write_rows;
use liq_audit::{Row, audit};
use liq_core::Protocol;
use liq_types::{Command, PoolEvent};
use std::alloc::Global;

/// The review of a journal's commands, as a text: for each account with an own operation,
/// ascending, a line `ACCOUNT BLO BHI BALANCE BALLOW GLO GHI GAIN GALLOW`, and at last a line
/// `within N of M`. The commands are replayed from the opening under the journal's limit. BLO and
/// BHI are whole numbers (micro-LUSD) between which the account's exact balance lies, BALANCE is
/// what the protocol gives it, and BALLOW by how much that may fall short; the other four say the
/// same of all that it gained (gwei), paid out or not. M is the number of these lines, and N of how
/// many of them that holds, which is all.
///
/// [`ReviewFault::Refused`] comes exactly where the replay does not accept a command, and
/// [`ReviewFault::Limit`] exactly where it accepts all and a limit is passed, where there is
/// memory.
pub fn review(alloc: Global, limit: u64, commands: &[Command]) -> Result<Vec<u8>, ReviewFault>
    requires limit { IsLimit limit }
    // The commands of one generation hold no rotation.
    requires no_rotation { All (λ (c : Command). is_rotate c.call ≡ false) commands.now }
    ensures text { IfOk result (λ text. reviewed limit commands.now ≡ Ok text.items) }
    ensures fault { IfErr result (λ fault. (fault ≡ ReviewFault.NoMemory)
        ⊎ (reviewed limit commands.now ≡ Err fault)) }

    // Each row encloses the exact share of its account, and what the protocol gives it is within: N
    // is M.
    ensures shares { OnOk result ((s : State) → replay 1 (opening_with limit) commands.now ≡ Ok s →
        let told = events (opening_with limit) commands.now
        in All (EnclosesShare told) (rows_of s told)) }
    ensures within { OnOk result ((s : State) → replay 1 (opening_with limit) commands.now ≡ Ok s →
        let rows = rows_of s (events (opening_with limit) commands.now) in count_by is_within rows
        ≡ length rows) }
{
    let made = replayed(alloc, limit, commands)?;
    limit_gains(&made.events)?;
    let rows = audited(alloc, &made.protocol, &made.events)?;
    Ok(write_rows(alloc, &rows)?)
}

/// The rows of the accounts with an own operation.
fn audited(
    alloc: Global,
    protocol: &Protocol,
    events: &[PoolEvent],
) -> Result<Vec<Row>, ReviewFault>
    requires auditable { IsAuditable events.now }
    requires fits { (account : ℕ) → gains_paid_to account events.now < 2 ^ 64 }
    requires pays { AllByRecursion (Pays protocol.now) (paid_table events.now) }
    ensures rows { IfOk result (λ rows. (s : State) → StandsFor protocol.now s
        → rows.items ≡ rows_of s events.now) }
    ensures within { OnOk result (limit_passed events.now ≡ None) }
    ensures limit { IfErr result (λ fault. (fault ≡ ReviewFault.NoMemory) ⊎ ((passed : ℕ × ℕ)
        × (limit_passed events.now ≡ Some passed) × (fault ≡ ReviewFault.Limit passed.0))) }
{
    let paid = gains_paid(alloc, events)?;
    let engine = engine_rows(alloc, protocol, &paid)?;
    Ok(audit(alloc, events, &engine)?)
}
