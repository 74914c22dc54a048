//! What stakers are answered, line by line, along the fees of a journal's records.

ghost use Rattle.std.specs.Prelude.{◌≡◌, ◌-◌, ◌<◌, ◌≤◌, ◌++◌, List, fold, length, take, drop, IfOk, OnOk};
ghost use Rattle.std.specs.List.{flat_map};
ghost use Rattle.liq_fees.specs.Happened.{Happened, changes_in, IsLawful, staked_of, stake_of};
ghost use Rattle.liq_fees.specs.Kept.{IsKeptOf, refusal_of};
ghost use Rattle.liq_fees.specs.declared.changes.TheConstants.{CHANGES_MOST};
ghost use Rattle.liq_text_staking.specs.Answering.{CanBeShared, IsAsked, IsOnTheWay};
ghost use Rattle.liq_text_staking.specs.Asked.{Asked, nothing_asked, shared, changed, answered, answered_all, shared_up_to};
ghost use Rattle.liq_text_staking.specs.Staked.{told_of, row_line};

use crate::told::{OutOfPlace, put_out_of_place, put_refusal, put_row};
use liq_fees::{CHANGES_MOST, ChangeFault, Fees, StakeLine};
use liq_text::append_line;
use liq_types::NoMemory;
use std::alloc::{AllocError, Global};
use std::collections::BTreeSet;

/// What stakers have asked so far, and the replies to it.
#[derive(Drop)]
pub(crate) struct Answering {
    pub(crate) fees: Fees,
    /// The accounts with an accepted change.
    pub(crate) stakers: BTreeSet<u32>,
    /// The record of the last line in place. The fees up to it are shared.
    pub(crate) least: u64,
    /// The replies, a line each.
    pub(crate) text: Vec<u8>,
}

/// The text that answers stakers, for the fees that the records of a journal paid (each collateral
/// in gwei and LUSD in micro-LUSD) and these lines: a reply for each line, a line
/// `ACCOUNT STAKE COLL LUSD ALLOW` for each account with an accepted change, ascending, and a line
/// `unshared COLL LUSD`. It fails for want of memory alone.
pub(crate) fn answer_stakers(
    alloc: Global,
    fees: &[(u64, u64)],
    lines: &[StakeLine],
) -> Result<Vec<u8>, NoMemory>
    requires few { length lines.now ≤ CHANGES_MOST }
    requires fees { CanBeShared fees.now }
    ensures { IfOk result (λ text. text.items
        ≡ told_of fees.now (answered_all fees.now lines.now)) }
{
    let mut asked = Answering {
        fees: Fees::new(alloc),
        stakers: BTreeSet::new(alloc),
        least: 0,
        text: Vec::new(alloc),
    };
    for line in lines {
        asked.answer(fees, line)?;
    }
    asked.tell(fees)
}

impl Answering {
    /// Answers a line. It is out of place where its record comes before that of the last line in
    /// place, or is not there.
    fn answer(&mut self, fees: &[(u64, u64)], line: &StakeLine) -> Result<(), NoMemory>
        requires fees { CanBeShared fees.now }
        requires few { ∥ ((a : Asked) × IsAsked self.old a × IsOnTheWay fees.now a
            × (changes_in a.past < CHANGES_MOST)) ∥₁ }
        ensures { OnOk result ((a : Asked) → IsAsked self.old a → IsOnTheWay fees.now a
            → changes_in a.past < CHANGES_MOST → IsAsked self.new (answered fees.now a line.now)) }
    {
        let most = fees.len() as u64;
        if line.at < self.least || most < line.at {
            let why = OutOfPlace {
                at: line.at,
                least: self.least,
                most,
            };
            return Ok(put_out_of_place(&mut self.text, &why)?);
        }
        share_all(&mut self.fees, fees_between(fees, self.least, line.at));
        self.change(line)
    }

    /// Makes the change that a line in place asks for, once the fees up to its record are shared.
    /// It is the last line in place then, whether it is refused or not.
    fn change(&mut self, line: &StakeLine) -> Result<(), NoMemory>
        requires few { ∥ ((past : List Happened) × IsKeptOf self.old.fees past
            × (changes_in past < CHANGES_MOST)) ∥₁ }
        ensures asked { OnOk result ((a : Asked) → IsAsked self.old a
            → changes_in a.past < CHANGES_MOST →
            IsAsked self.new (changed (record a { least = line.now.at }) line.now
            (refusal_of line.now.account
            line.now.amount line.now.out (staked_of a.past) (stake_of line.now.account a.past)))) }
        ensures least { self.new.least ≡ line.now.at }
    {
        self.least = line.at;
        match self.fees.change(line.account, line.amount, line.out) {
            Ok(()) => {
                let Ok(_) = self.stakers.insert(line.account) else {
                    return Err(NoMemory);
                };
                append_line(&mut self.text, b"ok", &[])?;
            }
            Err(ChangeFault::No(refusal)) => put_refusal(&mut self.text, &refusal)?,
            Err(ChangeFault::NoMemory) => return Err(NoMemory),
        }
        Ok(())
    }

    /// The whole text: what is left of the fees is shared, and what each account has and what
    /// stayed unshared is told.
    fn tell(self, fees: &[(u64, u64)]) -> Result<Vec<u8>, NoMemory>
        requires fees { CanBeShared fees.now }
        requires least { self.least ≤ length fees.now }
        requires way { ∥ ((a : Asked) × IsAsked self a × IsOnTheWay fees.now a) ∥₁ }
        ensures { IfOk result (λ text. (a : Asked) → IsAsked self a → IsOnTheWay fees.now a
            → text.items ≡ told_of fees.now a) }
    {
        let Answering {
            fees: mut kept,
            stakers,
            least,
            mut text,
        } = self;
        share_all(&mut kept, fees_between(fees, least, fees.len() as u64));
        put_rows(&mut text, &kept, &stakers)?;
        let (coll, lusd) = kept.unshared();
        append_line(
            &mut text,
            b"unshared",
            &[u128::from(coll), u128::from(lusd)],
        )?;
        Ok(text)
    }
}

/// The fees of the records behind one, up to another.
fn fees_between(fees: &[(u64, u64)], from: u64, to: u64) -> &[(u64, u64)]
    requires order { from ≤ to }
    requires there { to ≤ length fees.now }
    ensures { result.now ≡ take (to - from) (drop from fees.now) }
{
    &fees[from as usize..to as usize]
}

/// Shares the fees of records, in order.
fn share_all(kept: &mut Fees, fees: &[(u64, u64)])
    requires { ∥ ((past : List Happened) × IsKeptOf kept.old past
        × IsLawful (fold shared past fees.now)) ∥₁ }
    ensures { (past : List Happened) → IsKeptOf kept.old past
        → IsLawful (fold shared past fees.now) →
        IsKeptOf kept.new (fold shared past fees.now) }
{
    for fee in fees {
        share(kept, *fee);
    }
}

/// Shares the fee of a record, where there is any.
fn share(kept: &mut Fees, fee: (u64, u64))
    requires { ∥ ((past : List Happened) × IsKeptOf kept.old past × IsLawful (shared past fee)) ∥₁ }
    ensures { (past : List Happened) → IsKeptOf kept.old past → IsLawful (shared past fee)
        → IsKeptOf kept.new (shared past fee) }
{
    let (coll, lusd) = fee;
    if coll == 0 && lusd == 0 {
        return;
    }
    kept.share(coll, lusd);
}

/// Appends the line of each of these accounts, in order.
fn put_rows(text: &mut Vec<u8>, kept: &Fees, stakers: &BTreeSet<u32>) -> Result<(), AllocError>
    ensures { OnOk result ((past : List Happened) → IsKeptOf kept.now past →
        text.new.items ≡ text.old.items ++ flat_map (row_line past) stakers.now.keys) }
{
    for account in stakers {
        put_row(text, kept.row(*account))?;
    }
    Ok(())
}
