//! Lines of the text that tells rewards.

ghost use Rattle.std.specs.Prelude.{◌≡◌, ◌++◌, ◌∷◌, [], codes, decimal, map, OnOk};
ghost use Rattle.liq_text.specs.Writing.{words_line};
ghost use Rattle.liq_text_rewards.specs.Tagged.{numbers_of, front_word};
ghost use Rattle.liq_text_rewards.specs.Rewarded.{row_words};

use crate::tags::{TagRefusal, part_kept};
use itoa::Buffer;
use liq_rewards::{RewardRow, TagLine};
use liq_text::{append_line, append_number, append_numbers};
use std::alloc::AllocError;

/// Appends the reply to a tag that is refused: the refusal's code and its values.
pub(crate) fn put_refusal(text: &mut Vec<u8>, refusal: &TagRefusal) -> Result<(), AllocError>
    ensures { OnOk result (text.new.items
        ≡ text.old.items ++ words_line (codes "no" ∷ map decimal (numbers_of refusal.now))) }
{
    match *refusal {
        TagRefusal::AccountRange { value } => append_line(text, b"no", &[13, u128::from(value)]),
        TagRefusal::TagRate { rate, limit } => {
            append_line(text, b"no", &[45, u128::from(rate), u128::from(limit)])
        }
        TagRefusal::TagTwice { account } => append_line(text, b"no", &[46, u128::from(account)]),
    }
}

/// Appends an account's line: its reward, by how much that may fall short, what it keeps, and what
/// its front end is given.
pub(crate) fn put_row(
    text: &mut Vec<u8>,
    row: RewardRow,
    tag: Option<TagLine>,
) -> Result<(), AllocError>
    ensures { OnOk result (text.new.items ≡ text.old.items ++ words_line (row_words row tag)) }
{
    let reward = u128::from(row.reward);
    let kept = part_kept(row.reward, tag);
    text.extend_from_slice(Buffer::new().format(row.account).as_bytes())?;
    append_numbers(text, &[reward, row.allow, kept])?;
    put_front(text, tag)?;
    // An accepted tag keeps no more than all.
    append_number(text, reward.saturating_sub(kept))?;
    text.extend_from_slice(b"\n")
}

/// Appends the account of a tag's front end, with a space before it.
fn put_front(text: &mut Vec<u8>, tag: Option<TagLine>) -> Result<(), AllocError>
    ensures { OnOk result (text.new.items ≡ text.old.items ++ (32 ∷ front_word tag)) }
{
    match tag {
        None => text.extend_from_slice(b" -"),
        Some(tag) => append_number(text, u128::from(tag.front)),
    }
}

/// Appends the last line.
pub(crate) fn put_issued(text: &mut Vec<u8>, issued: u64, unshared: u64) -> Result<(), AllocError>
    ensures { OnOk result (text.new.items ≡ text.old.items
        ++ words_line (codes "issued" ∷ decimal issued ∷ codes "unshared" ∷ decimal unshared
        ∷ [])) }
{
    text.extend_from_slice(b"issued")?;
    append_number(text, u128::from(issued))?;
    text.extend_from_slice(b" unshared")?;
    append_number(text, u128::from(unshared))?;
    text.extend_from_slice(b"\n")
}
