//! Lines on which stakers ask, read.

ghost use Rattle.std.specs.Prelude.{◌≡◌, ◌∷◌, [], Ok, IfOk, OnErr};
ghost use Rattle.liq_fees.specs.declared.lines.StakeLine.{StakeLine};
ghost use Rattle.liq_fees.specs.Lines.{Spells};
ghost use Rattle.liq_text.specs.Reading.{pieces_of};
ghost use Rattle.liq_fees.specs.Reading.{out_of, line_of};

use liq_text::{four_words, read_account, read_number};
use thiserror::Error;

/// What a staker asks for on a line.
#[derive(Clone, Copy, PartialEq, Eq)]
pub struct StakeLine {
    /// After how many records of the journal the change is made.
    pub at: u64,
    pub account: u32,
    /// In units of the staked token.
    pub amount: u64,
    /// Whether the amount is taken out.
    pub out: bool,
}

/// The line is not one on which a staker asks.
#[derive(Clone, Copy, Debug, PartialEq, Eq, Error)]
#[error("no staker asks so")]
pub struct BadStakeLine;

/// What a line asks for, the line end not counted: `AT ACCOUNT stake AMOUNT` or
/// `AT ACCOUNT unstake AMOUNT`, with one space between two words and numbers without leading zeros,
/// the account below 2^32 and the others below 2^64. [`BadStakeLine`] exactly where it is no such
/// line.
pub fn read_stake_line(line: &[u8]) -> Result<StakeLine, BadStakeLine>
    ensures found { IfOk result (λ l. Spells line.now l) }
    // So at most one is spelled.
    ensures only { (l : StakeLine) → Spells line.now l → result ≡ Ok l }
    ensures bad { OnErr result ((l : StakeLine) → Spells line.now l → ⊥) }
{
    stake_line(line).ok_or(BadStakeLine)
}

fn stake_line(line: &[u8]) -> Option<StakeLine>
    ensures { result ≡ line_of (pieces_of line.now) }
{
    let (at, account, verb, amount) = four_words(line)?;
    stake_line_in(at, account, verb, amount)
}

/// What four words ask for.
#[tactic(auto, unfolding(crate::specs::Reading::line_of, crate::specs::Reading::line_by))]
fn stake_line_in(at: &[u8], account: &[u8], verb: &[u8], amount: &[u8]) -> Option<StakeLine>
    ensures { result ≡ line_of (at.now ∷ account.now ∷ verb.now ∷ amount.now ∷ []) }
{
    let at = read_number(at)?;
    let account = read_account(account)?;
    let out = is_out(verb)?;
    let amount = read_number(amount)?;
    Some(StakeLine {
        at,
        account,
        amount,
        out,
    })
}

#[tactic(auto, unfolding(crate::specs::Reading::out_of))]
fn is_out(verb: &[u8]) -> Option<bool>
    ensures { result ≡ out_of verb.now }
{
    if verb == b"stake".as_slice() {
        return Some(false);
    }
    if verb == b"unstake".as_slice() {
        return Some(true);
    }
    None
}
