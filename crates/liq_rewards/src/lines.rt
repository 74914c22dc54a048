//! Lines on which depositors name a front end, read.

ghost use Rattle.std.specs.Prelude.{◌≡◌, ◌∷◌, [], Ok, IfOk, OnErr};
ghost use Rattle.liq_rewards.specs.declared.lines.TagLine.{TagLine};
ghost use Rattle.liq_rewards.specs.Lines.{Spells};
ghost use Rattle.liq_text.specs.Reading.{pieces_of};
ghost use Rattle.liq_rewards.specs.Reading.{tag_of, line_of};

use liq_text::{four_words, read_account, read_number};

/// What a depositor says on a line: through whom it came, and what it keeps of its rewards.
#[derive(Clone, Copy, PartialEq, Eq)]
pub struct TagLine {
    pub account: u32,
    /// The account of the front end.
    pub front: u32,
    /// The part of the rewards that the depositor keeps, over 10^18.
    pub kept_part: u64,
}

/// The line is not one on which a depositor names a front end.
#[derive(Clone, Copy, PartialEq, Eq)]
pub struct BadTagLine;

/// What a line says, the line end not counted: `tag ACCOUNT FRONT RATE`, with one space between two
/// words and numbers without leading zeros, account and front below 2^32 and the rate below 2^64.
/// [`BadTagLine`] exactly where it is no such line.
pub fn read_tag_line(line: &[u8]) -> Result<TagLine, BadTagLine>
    ensures found { IfOk result (λ l. Spells line.now l) }
    // So at most one is spelled.
    ensures only { (l : TagLine) → Spells line.now l → result ≡ Ok l }
    ensures bad { OnErr result ((l : TagLine) → Spells line.now l → ⊥) }
{
    tag_line(line).ok_or(BadTagLine)
}

fn tag_line(line: &[u8]) -> Option<TagLine>
    ensures { result ≡ line_of (pieces_of line.now) }
{
    let (verb, account, front, rate) = four_words(line)?;
    tag_line_in(verb, account, front, rate)
}

/// What four words say.
#[tactic(auto, unfolding(crate::specs::Reading::line_of, crate::specs::Reading::line_by))]
fn tag_line_in(verb: &[u8], account: &[u8], front: &[u8], rate: &[u8]) -> Option<TagLine>
    ensures { result ≡ line_of (verb.now ∷ account.now ∷ front.now ∷ rate.now ∷ []) }
{
    tag_in(verb)?;
    let account = read_account(account)?;
    let front = read_account(front)?;
    let rate = read_number(rate)?;
    Some(TagLine {
        account,
        front,
        kept_part: rate,
    })
}

#[tactic(auto, unfolding(crate::specs::Reading::tag_of))]
fn tag_in(verb: &[u8]) -> Option<()>
    ensures { result ≡ tag_of verb.now }
{
    if verb == b"tag".as_slice() {
        Some(())
    } else {
        None
    }
}
