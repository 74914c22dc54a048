//! Tags: through whom a depositor came, and what it keeps of its rewards.

ghost use Rattle.std.specs.Prelude.{◌≡◌, ◌++◌, [], IfOk, OnOk};
ghost use Rattle.liq_num.specs.Quotient.{floor_of};
ghost use Rattle.liq_text.specs.Writing.{words_line};
ghost use Rattle.liq_text_rewards.specs.Tagged.{refusal_of, reply_words, tags_of, replies, with_tag, kept_of};

use crate::told::put_refusal;
use liq_num::mul_div;
use liq_rewards::TagLine;
use liq_text::append_line;
use liq_types::NoMemory;
use liq_types::amounts::{ACCOUNTS, ONE};
use std::alloc::Global;
use std::collections::BTreeMap;

/// Why a tag is refused. Its fields are printed in their order behind its code.
#[derive(Clone, Copy, PartialEq, Eq)]
pub enum TagRefusal {
    /// 13: the account, or the front end's, is not below [`ACCOUNTS`].
    AccountRange { value: u32 },
    /// 45: the part that the depositor keeps is more than all.
    TagRate { rate: u64, limit: u64 },
    /// 46: an earlier tag of the account was accepted.
    TagTwice { account: u32 },
}

/// Answers each line, with a line of the text, and gives the tags that are accepted.
pub(crate) fn answer_tags(
    alloc: Global,
    lines: &[TagLine],
    text: &mut Vec<u8>,
) -> Result<BTreeMap<u32, TagLine>, NoMemory>
    ensures tags { IfOk result (λ tags. tags.entries ≡ tags_of lines.now) }
    ensures text { OnOk result (text.new.items ≡ text.old.items ++ replies [] lines.now) }
{
    let mut tags = BTreeMap::new(alloc);
    for line in lines {
        answer(&mut tags, text, line)?;
    }
    Ok(tags)
}

fn answer(
    tags: &mut BTreeMap<u32, TagLine>,
    text: &mut Vec<u8>,
    line: &TagLine,
) -> Result<(), NoMemory>
    ensures tags { OnOk result (tags.new.entries ≡ with_tag tags.old.entries line.now) }
    ensures text { OnOk result (text.new.items
        ≡ text.old.items ++ words_line (reply_words (refusal_of tags.old.entries line.now))) }
{
    match refusal(tags, line) {
        None => {
            let Ok(_) = tags.insert(line.account, *line) else {
                return Err(NoMemory);
            };
            append_line(text, b"ok", &[])?;
        }
        Some(refusal) => put_refusal(text, &refusal)?,
    }
    Ok(())
}

/// Why a tag is refused, if it is.
fn refusal(tags: &BTreeMap<u32, TagLine>, line: &TagLine) -> Option<TagRefusal>
    ensures { result ≡ refusal_of tags.now.entries line.now }
{
    if line.account >= ACCOUNTS {
        return Some(TagRefusal::AccountRange {
            value: line.account,
        });
    }
    if line.front >= ACCOUNTS {
        return Some(TagRefusal::AccountRange { value: line.front });
    }
    if line.kept_part > ONE {
        return Some(TagRefusal::TagRate {
            rate: line.kept_part,
            limit: ONE,
        });
    }
    if tags.get(&line.account).is_some() {
        return Some(TagRefusal::TagTwice {
            account: line.account,
        });
    }
    None
}

/// What a depositor keeps of its reward; without a tag it is all of it.
pub(crate) fn part_kept(reward: u64, tag: Option<TagLine>) -> u128
    ensures { result ≡ kept_of reward tag }
{
    match tag {
        None => u128::from(reward),
        Some(tag) => part(reward, tag.kept_part),
    }
}

/// A part of a reward, over 10^18, rounded down.
fn part(reward: u64, rate: u64) -> u128
    ensures { result ≡ floor_of reward rate ONE }
{
    mul_div(u128::from(reward), u128::from(rate), u128::from(ONE))
}
