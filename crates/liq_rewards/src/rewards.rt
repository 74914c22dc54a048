//! The account of all reward units: those that are due are issued by the minutes that pass, and
//! shared before the next event, or counted as unshared.

ghost use Rattle.std.specs.Prelude.{◌≡◌, ℕ, ◌+◌, ◌-◌, ◌<◌, ◌≤◌, true, [], ◌∷◌, List};
ghost use Rattle.std.specs.Prelude.{IsOk, OnOk, OnErr, IfSome, if◌then◌else◌};
ghost use Rattle.std.specs.Option.{is_some};
ghost use Rattle.liq_types.specs.PlainLedger.{AreOwnedBelow, over_accounts};
ghost use Rattle.liq_types.specs.Product.{after_offset};
ghost use Rattle.liq_stability.specs.Words.{words_in, offset_in};
ghost use Rattle.liq_rewards.specs.Issued.{issued};
ghost use Rattle.liq_rewards.specs.Timed.{Timed, timed, events_of, unshared_at};
ghost use Rattle.liq_rewards.specs.Earning.{reward_at};
ghost use Rattle.liq_rewards.specs.Exact.{IsWithinAllowance};
ghost use Rattle.liq_rewards.specs.Earner.{sharing_of, IsSmallDue};
ghost use Rattle.liq_rewards.specs.Kept.{Kept, has_row, HasRoomFor, IsKeptOf, MayHappen, row_of};
ghost use Rattle.liq_rewards.specs.Kept.{words_then, CanHappen};

use crate::issuance::{EVENTS_MOST, UNITS_MOST, issued};
use crate::rows::Rows;
use crate::sharing::Sharing;
use liq_stability::{PoolWords, offset_words};
use liq_types::amounts::P_OPENING;
use liq_types::{NoMemory, PoolEvent};
use std::alloc::Global;
use std::marker::Model;

/// What is told of an account.
#[derive(Clone, Copy, PartialEq, Eq)]
pub struct RewardRow {
    pub account: u32,
    /// All units that it has earned.
    pub reward: u64,
    /// By how much they may fall short of the exact share.
    pub allow: u128,
}

/// Reward units, as all events so far and the minutes between them make them. Contracts say what a
/// value stands for by `IsKeptOf`: a list of events with their minutes, the latest first. Each
/// value stands for a lawful list. Only [`Rewards::reserve`] takes memory. An event takes time in
/// all accounts that have room, also where nothing is left of their deposits, if what is due is
/// shared before it, or it is an offset that raises the scale or ends the epoch. Any other takes no
/// more time with more accounts.
#[derive(Drop)]
pub struct Rewards {
    /// The last minute that was told.
    minute: u64,
    /// Units that were issued since the last event.
    due: u64,
    /// Units that were not shared, those that are due not counted.
    unshared: u64,
    words: PoolWords,
    rows: Rows,
}

impl Model for Rewards {
    ghost use Rattle.std.specs.Prelude.{List};
    ghost use Rattle.liq_rewards.specs.Timed.{Timed};
    ghost use Rattle.liq_rewards.specs.Kept.{Kept, IsKeptOf};
    ghost use Rattle.liq_rewards.specs.Rows.{all_now};

    ghost Value = { Kept };

    ghost view = { λ r. record {
      minute = r.minute;
      due = r.due;
      unshared = r.unshared;
      words = r.words;
      earners = all_now r.words r.rows;
    } };

    ghost invariant = { λ r. ∥ ((past : List Timed) × IsKeptOf (record {
      minute = r.minute;
      due = r.due;
      unshared = r.unshared;
      words = r.words;
      earners = all_now r.words r.rows;
    }) past) ∥₁ };
}

impl Rewards {
    /// Nothing has happened, and it is minute 0.
    pub fn new(alloc: Global) -> Rewards
        ensures kept { IsKeptOf result [] }
        ensures minute { result.minute ≡ 0 }
    {
        Rewards {
            minute: 0,
            due: 0,
            unshared: 0,
            words: PoolWords::OPENING,
            rows: Rows::new(alloc),
        }
    }

    /// Makes room for one event, an own operation of the account if one is named. Nothing else
    /// changes; without memory nothing changes at all, and where there was room none is wanted. It
    /// takes memory by the greatest account too, 24 bytes for each 1,024 below it.
    pub fn reserve(&mut self, account: Option<u32>) -> Result<(), NoMemory>
        ensures kept { (past : List Timed) → IsKeptOf self.old past → IsKeptOf self.new past }
        ensures minute { self.new.minute ≡ self.old.minute }
        ensures account { OnOk result (IfSome account (λ a. has_row self.new.earners a ≡ true)) }
        ensures room { (a : ℕ) → has_row self.old.earners a ≡ true → has_row self.new.earners a
            ≡ true }
        ensures had { IfSome account (λ a. has_row self.old.earners a ≡ true) → IsOk result }
        ensures err { OnErr result (self.new ≡ self.old) }
    {
        let Some(account) = account else {
            return Ok(());
        };
        if self.rows.has(account) {
            return Ok(());
        }
        self.rows.add(account)
    }

    /// It is this minute, which is none before the last one. What is issued until then is due from
    /// now on.
    pub fn to_minute(&mut self, minute: u64)
        requires { self.old.minute ≤ minute }
        ensures kept { (past : List Timed) → IsKeptOf self.old past → IsKeptOf self.new past }
        ensures minute { self.new.minute ≡ minute }
        ensures room { self.new.earners ≡ self.old.earners }
    {
        self.due += issued_between(self.minute, minute);
        self.minute = minute;
    }

    /// An event happens in the last minute that was told. First what is due is shared, where the
    /// pool has enough, or counts as unshared. All events so far and this one are a lawful list,
    /// and a value takes at most [`EVENTS_MOST`].
    pub fn event(&mut self, event: &PoolEvent)
        requires room { HasRoomFor self.old.earners event.now }
        requires lawful { ∥ ((past : List Timed) × IsKeptOf self.old past
            × MayHappen (timed self.old.minute event.now) past) ∥₁ }
        ensures kept { (past : List Timed) → IsKeptOf self.old past
            → MayHappen (timed self.old.minute event.now) past →
            IsKeptOf self.new (timed self.old.minute event.now ∷ past) }
        ensures minute { self.new.minute ≡ self.old.minute }
        ensures room { (a : ℕ) → has_row self.old.earners a ≡ true → has_row self.new.earners a
            ≡ true }
    {
        let (sharing, words) = shared_first(&self.words, self.due, event);
        self.rows.event(&self.words, &words, sharing, event);
        self.unshared += unshared_by(sharing, self.due);
        self.words = words;
        self.due = 0;
    }

    /// All units that an account has earned, what is due now being shared too: never more than its
    /// exact share, and less by at most what the row allows.
    pub fn row(&self, account: u32) -> RewardRow
        ensures row { (past : List Timed) → IsKeptOf self.now past
            → result ≡ row_of account self.now.minute past }
        ensures share { (past : List Timed) → IsKeptOf self.now past →
            IsWithinAllowance account self.now.minute past result.reward result.allow }
    {
        let sharing = Sharing::of(&self.words, self.due);
        let mut earner = self.rows.earner(&self.words, account);
        earner.deal(&self.words, sharing);
        RewardRow {
            account,
            reward: earner.reward(),
            allow: earner.allowance(),
        }
    }

    /// All units that were issued until now.
    pub fn issued(&self) -> u64
        ensures { result ≡ issued self.now.minute }
    {
        issued(self.minute)
    }

    /// The units that were not shared, what is due counted where it is not shared now. With all
    /// rewards they are at most those that were issued.
    pub fn unshared(&self) -> u64
        ensures unshared { (past : List Timed) → IsKeptOf self.now past
            → result ≡ unshared_at self.now.minute past }
        ensures whole { (past : List Timed) → IsKeptOf self.now past → (n : ℕ)
            → AreOwnedBelow n (events_of past) →
            over_accounts n (λ account. reward_at account self.now.minute past) + result
            ≤ issued self.now.minute }
    {
        let sharing = Sharing::of(&self.words, self.due);
        self.unshared + unshared_by(sharing, self.due)
    }
}

/// The units that are issued from one minute to another.
fn issued_between(from: u64, to: u64) -> u64
    requires { from ≤ to }
    ensures units { result ≡ issued to - issued from }
    ensures within { result ≤ UNITS_MOST }
{
    issued(to) - issued(from)
}

/// The units that are due and not shared.
fn unshared_by(sharing: Option<Sharing>, due: u64) -> u64
    ensures units { result ≡ (if is_some sharing then 0 else due) }
    ensures within { result ≤ due }
{
    if sharing.is_some() { 0 } else { due }
}

/// What is shared before an event, which is by the words before it, and the words after it.
fn shared_first(words: &PoolWords, due: u64, event: &PoolEvent) -> (Option<Sharing>, PoolWords)
    requires happens { CanHappen words.now event.now }
    requires units { due ≤ UNITS_MOST }
    requires product { words.now.p ≤ P_OPENING }
    ensures sharing { result.0 ≡ sharing_of words.now due }
    ensures small { IsSmallDue words.now result.0 }
    ensures words { result.1 ≡ words_then words.now event.now }
{
    let after = words_after(words, event);
    (Sharing::of(words, due), after)
}

/// The words of the Stability Pool after an event, as far as rewards read them.
fn words_after(words: &PoolWords, event: &PoolEvent) -> PoolWords
    requires happens { CanHappen words.now event.now }
    requires product { words.now.p ≤ P_OPENING }
    ensures words { result ≡ words_then words.now event.now }
    ensures product { result.p ≤ P_OPENING }
{
    match *event {
        PoolEvent::Own { put, paid, .. } => PoolWords {
            total: words.total - paid + put,
            ..*words
        },
        PoolEvent::Offset { debt, .. } => {
            let after = offset_words(words, debt, 0).0;
            PoolWords {
                sum: 0,
                coll: 0,
                ..after
            }
        }
    }
}
