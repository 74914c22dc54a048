//! The text that tells rewards.

ghost use Rattle.std.specs.Prelude.{◌≡◌, ◌++◌, List, IfOk, OnOk, OnErr};
ghost use Rattle.std.specs.List.{flat_map};
ghost use Rattle.liq_rewards.specs.Timed.{Timed};
ghost use Rattle.liq_rewards.specs.Kept.{IsKeptOf};
ghost use Rattle.liq_text_rewards.specs.Rewarded.{told, row_line};

use crate::tags::answer_tags;
use crate::told::{put_issued, put_row};
use liq_rewards::{Rewards, TagLine};
use liq_types::NoMemory;
use std::alloc::{AllocError, Global};
use std::collections::BTreeMap;

/// Appends the text that tells rewards: a reply for each line on which a depositor names a front
/// end, a line `ACCOUNT REWARD ALLOW KEPT FRONT GIVEN` for each of these accounts, and a line
/// `issued I unshared U`. Without memory nothing is appended.
///
/// KEPT is the part of REWARD that the account's tag says, rounded down, and GIVEN the rest, which
/// is FRONT's; without a tag FRONT is `-`, and GIVEN is 0.
pub fn rewards_text(
    lines: &[TagLine],
    rewards: &Rewards,
    accounts: &[u32],
    out: &mut Vec<u8>,
) -> Result<(), NoMemory>
    ensures text { OnOk result ((past : List Timed) → IsKeptOf rewards.now past →
        out.new.items ≡ out.old.items ++ told lines.now rewards.now.minute past accounts.now) }
    ensures same { OnErr result (out.new.items ≡ out.old.items) }
{
    let text = text(*out.allocator(), lines, rewards, accounts)?;
    Ok(out.extend_from_slice(&text)?)
}

fn text(
    alloc: Global,
    lines: &[TagLine],
    rewards: &Rewards,
    accounts: &[u32],
) -> Result<Vec<u8>, NoMemory>
    ensures { IfOk result (λ text. (past : List Timed) → IsKeptOf rewards.now past →
        text.items ≡ told lines.now rewards.now.minute past accounts.now) }
{
    let mut text = Vec::new(alloc);
    let tags = answer_tags(alloc, lines, &mut text)?;
    put_rows(&mut text, rewards, &tags, accounts)?;
    put_issued(&mut text, rewards.issued(), rewards.unshared())?;
    Ok(text)
}

/// Appends the line of each of these accounts, in order.
fn put_rows(
    text: &mut Vec<u8>,
    rewards: &Rewards,
    tags: &BTreeMap<u32, TagLine>,
    accounts: &[u32],
) -> Result<(), AllocError>
    ensures { OnOk result ((past : List Timed) → IsKeptOf rewards.now past →
        text.new.items ≡ text.old.items ++ flat_map (row_line tags.now.entries rewards.now.minute
        past) accounts.now) }
{
    for account in accounts {
        let tag = tags.get(account).copied();
        put_row(text, rewards.row(*account), tag)?;
    }
    Ok(())
}
