//! The Stability Pool of all depositors: words, finished sums in ascending places, and deposits,
//! none of which has a place after the current one or a mark above the sum of its place.

ghost use Rattle.std.specs.Prelude.{◌≡◌, ◌+◌, ◌-◌, ◌*◌, ◌^◌, ◌≤◌, ◌<◌, [], ◌∷◌, map, IsTrue, IfSome, IfOk, IsOk, OnOk, OnErr, OnSome, slice_get, option_copied, option_map, unwrap_or, vec_len, vec_capacity, length};
ghost use Rattle.std.specs.List.{AllByRecursion};
ghost use Rattle.std.specs.List.Sorted.{IsStrictlySortedBy};
ghost use Rattle.std.specs.Map.{keys_of, lookup};
ghost use Rattle.liq_types.specs.Product.{is_place, place_order};
ghost use Rattle.liq_types.specs.Rules.{first_refusal, outcome};
ghost use Rattle.liq_types.specs.Soundness.{is_product, is_sum_beside};
ghost use Rattle.liq_types.specs.Tables.{Table, at, rows};
ghost use Rattle.liq_types.specs.WellFormed.{Ascends};
ghost use Rattle.liq_tables.specs.Rows.{is_used_deposit};
ghost use Rattle.liq_tables.specs.WithRoom.{HasRoom, KeepsRoom};
ghost use Rattle.liq_stability.specs.Position.{deposit_now};
ghost use Rattle.liq_stability.specs.Words.{words_after, finished_by, finished_with};
ghost use Rattle.liq_stability.specs.Kept.{IsSoundPool, IsDepositOf, finished_rows, finished_of, sum_at, sums_for, position_at, left_in, words_owned, withdrawing, room_for, with_last};

use crate::offsets::offset_words;
use crate::positions::position;
use crate::words::PoolWords;
use liq_tables::Reserved;
use liq_types::amounts::{LIM, OFFSET_MOST, P_OPENING};
use liq_types::{Deposit, DepositRow, DepositRows, FinishedRows, FinishedSum, NoMemory, Refusal};
use std::alloc::Global;
use std::marker::Model;

/// The words of the pool, the sums that are finished, and the deposit of each account that has one.
/// Contracts see the words, the finished sums in ascending places, the deposits in ascending
/// accounts with the accounts that have room for one, and for how many more finished sums there is
/// room. Only [`Stability::reserve`] and [`Stability::from_parts`] take memory.
#[derive(Drop)]
pub struct Stability {
    words: PoolWords,
    finished: Vec<FinishedSum>,
    deposits: Reserved<Deposit>,
}

impl Model for Stability {
    ghost use Rattle.std.specs.Prelude.{◌-◌, vec_len, vec_capacity};
    ghost use Rattle.liq_stability.specs.Kept.{Kept, IsSoundPool, finished_rows};

    ghost Value = { Kept };

    ghost view = { λ s. record {
      words = s.words;
      finished = finished_rows s.finished.items;
      deposits = s.deposits;
      spare = vec_capacity s.finished - vec_len s.finished;
    } };

    ghost invariant = { λ s. IsSoundPool s.words (finished_rows s.finished.items) s.deposits.rows };
}

impl Stability {
    /// A pool of nothing: the product is whole.
    pub fn new(alloc: Global) -> Stability
        ensures words { result.words ≡ record {
          p = P_OPENING;
          scale = 0;
          epoch = 0;
          sum = 0;
          total = 0;
          coll = 0;
        } }
        ensures finished { result.finished ≡ [] }
        ensures deposits { result.deposits.rows ≡ [] }
    {
        Stability {
            words: PoolWords::OPENING,
            finished: Vec::new(alloc),
            deposits: Reserved::new(alloc),
        }
    }

    /// Makes room for a deposit of the account, if one is named, and for so many offsets, so that
    /// [`Stability::provide`] and [`Stability::offset`] take no memory. Words, finished sums and
    /// deposits stay, also where there is no memory, and so does all room that there was. Where
    /// there was this room none is wanted.
    pub fn reserve(&mut self, account: Option<u32>, offsets: usize) -> Result<(), NoMemory>
        ensures words { self.new.words ≡ self.old.words }
        ensures finished { self.new.finished ≡ self.old.finished }
        ensures deposits { self.new.deposits.rows ≡ self.old.deposits.rows }
        ensures account { OnOk result (IfSome account (λ a. HasRoom self.new.deposits a)) }
        ensures offsets { OnOk result (offsets ≤ self.new.spare) }
        ensures kept { KeepsRoom self.old.deposits self.new.deposits }
        ensures spare { self.old.spare ≤ self.new.spare }
        ensures had { IfSome account (λ a. HasRoom self.old.deposits a) → offsets ≤ self.old.spare
            → IsOk result }
    {
        if let Some(account) = account {
            self.deposits.reserve(account)?;
        }
        match self.finished.reserve(offsets) {
            Ok(()) => Ok(()),
            Err(_) => Err(NoMemory),
        }
    }

    /// The six words.
    pub fn words(&self) -> &PoolWords
        ensures words { result.now ≡ self.now.words }
        ensures product { IsTrue (is_product result.now.p) }
        ensures sum { IsTrue (is_sum_beside result.now.sum result.now.p) }
        ensures total { result.now.total ≤ LIM }
        ensures coll { result.now.coll ≤ LIM }
    {
        &self.words
    }

    /// The account's deposit as of its owner's last operation, if it has one.
    pub fn deposit(&self, account: u32) -> Option<&Deposit>
        ensures row { option_copied result ≡ at self.now.deposits.rows account }
        ensures sound { IfSome result (λ d. IsDepositOf self.now.words self.now.finished d.now) }
        ensures room { OnSome result (HasRoom self.now.deposits account) }
    {
        self.deposits.get(account)
    }

    /// The sums of the deposit's epoch at its scale and the next three, the deposit's own mark not
    /// taken off.
    pub fn four(&self, deposit: &Deposit) -> [u128; 4]
        ensures sums { result ≡ map (sums_for self.now.words self.now.finished deposit.now) (0 ∷ 1
            ∷ 2 ∷ 3 ∷ []) }
        ensures within { AllByRecursion (λ sum. sum ≤ OFFSET_MOST * P_OPENING) result }
    {
        let Deposit { epoch, scale, .. } = *deposit;
        let scale = u128::from(scale);
        [
            self.sum_at(epoch, scale),
            self.sum_at(epoch, scale + 1),
            self.sum_at(epoch, scale + 2),
            self.sum_at(epoch, scale + 3),
        ]
    }

    /// LUSD (micro-LUSD) into the account's deposit, which has what was left of it and this from
    /// now on. Answers the gain (gwei), which is paid out. Other deposits and the finished sums
    /// stay.
    pub fn provide(&mut self, account: u32, amount: u64) -> u64
        requires room { HasRoom self.old.deposits account }
        requires some { 1 ≤ amount }
        requires limit { self.old.words.total + amount ≤ LIM }
        ensures gain { result ≡ (position_at self.old account).1 }
        ensures words { self.new.words ≡ words_owned self.old.words amount 0 result }
        ensures deposits { self.new.deposits.rows ≡ left_in self.old.deposits.rows self.old.words
            account ((position_at self.old account).0 + amount) }
        ensures room { self.new.deposits.room ≡ self.old.deposits.room }
        ensures finished { self.new.finished ≡ self.old.finished }
        ensures spare { self.new.spare ≡ self.old.spare }
    {
        let (balance, gain) = self.position_of(account);
        self.words.total += amount;
        self.words.coll -= gain;
        let left = left_now(&self.words, balance + amount);
        self.deposits.write(account, left);
        gain
    }

    /// LUSD out of the account's deposit, at most this much (micro-LUSD), and its gain. Answers
    /// both, LUSD first. What is left counts from now on, and where nothing is left the account has
    /// no deposit any more. `NoDeposit` comes where it has none, and nothing changes then. Other
    /// deposits and the finished sums stay.
    pub fn withdraw(&mut self, account: u32, most: u64) -> Result<(u64, u64), Refusal>
        ensures answer { result ≡ withdrawing self.old account most }
        ensures words { IfOk result (λ paid. self.new.words
            ≡ words_owned self.old.words 0 paid.0 paid.1) }
        ensures deposits { IfOk result (λ paid. self.new.deposits.rows
            ≡ left_in self.old.deposits.rows self.old.words account
            ((position_at self.old account).0 - paid.0)) }
        ensures room { self.new.deposits.room ≡ self.old.deposits.room }
        ensures finished { self.new.finished ≡ self.old.finished }
        ensures spare { self.new.spare ≡ self.old.spare }
        ensures err { OnErr result (self.new ≡ self.old) }
    {
        if self.deposits.get(account).is_none() {
            return Err(Refusal::NoDeposit { account });
        }
        let (balance, gain) = self.position_of(account);
        let paid = balance.min(most);
        self.words.total -= paid;
        self.words.coll -= gain;
        let left = left_now(&self.words, balance - paid);
        self.deposits.write(account, left);
        Ok((paid, gain))
    }

    /// The pool takes over debt (micro-LUSD) for collateral (gwei): the words change, and the sum
    /// of the place that they leave is finished, if it is not 0. Every deposit and every other
    /// finished sum stays.
    pub fn offset(&mut self, debt: u64, coll: u64)
        requires some { 1 ≤ debt }
        requires within { debt ≤ self.old.words.total }
        requires worth { coll ≤ OFFSET_MOST * debt }
        requires limit { self.old.words.coll + coll ≤ LIM }
        requires scale { self.old.words.scale ≤ 2 ^ 64 - 4 }
        requires epoch { self.old.words.epoch ≤ 2 ^ 64 - 4 }
        requires room { 1 ≤ self.old.spare }
        ensures words { self.new.words ≡ words_after self.old.words debt coll }
        ensures finished { self.new.finished ≡ finished_with self.old.finished
            (finished_by self.old.words debt coll) }
        ensures deposits { self.new.deposits ≡ self.old.deposits }
        ensures spare { self.new.spare + room_for (finished_by self.old.words debt coll)
            ≡ self.old.spare }
    {
        let (words, finished) = offset_words(&self.words, debt, coll);
        self.words = words;
        keep(&mut self.finished, finished);
    }

    /// The finished sums, in ascending places.
    pub fn finished_sums(&self, alloc: Global) -> Result<FinishedRows, NoMemory>
        ensures { IfOk result (λ rows. rows ≡ self.now.finished) }
    {
        let mut rows = FinishedRows::new(alloc);
        for sum in &self.finished {
            rows.push(*sum)?;
        }
        Ok(rows)
    }

    /// How many sums are finished.
    pub fn finished_count(&self) -> u64
        ensures { result ≡ length self.now.finished }
    {
        self.finished.len() as u64
    }

    /// The deposits, in ascending accounts.
    pub fn rows(&self, alloc: Global) -> Result<DepositRows, NoMemory>
        ensures { IfOk result (λ rows. rows ≡ self.now.deposits.rows) }
    {
        let deposits = self.deposits.rows(alloc)?;
        let mut rows = DepositRows::new(alloc);
        for &(account, deposit) in &deposits {
            rows.push(DepositRow {
                account,
                amount: deposit.amount,
                p: deposit.p,
                sum: deposit.sum,
                scale: deposit.scale,
                epoch: deposit.epoch,
            })?;
        }
        Ok(rows)
    }

    /// How many accounts have a deposit.
    pub fn count(&self) -> u64
        ensures { result ≡ length self.now.deposits.rows }
    {
        self.deposits.count()
    }

    /// The finished sum at an index, from 0, in ascending places: `None` exactly past the last.
    pub fn finished(&self, index: u64) -> Option<FinishedSum>
        ensures sum { result ≡ option_map finished_of (slice_get self.now.finished index) }
        ensures ascending { IsStrictlySortedBy place_order (keys_of self.now.finished) }
    {
        self.finished.get(index as usize).copied()
    }

    /// A pool of just these words, finished sums and deposits, as a sound image has them. A deposit
    /// of nothing is none.
    pub fn from_parts(
        alloc: Global,
        words: PoolWords,
        finished: Vec<FinishedSum>,
        deposits: Vec<(u32, Deposit)>,
    ) -> Result<Stability, NoMemory>
        requires { IsSoundPool words (finished_rows finished.items) deposits.items }
        ensures words { IfOk result (λ s. s.words ≡ words) }
        ensures finished { IfOk result (λ s. s.finished ≡ finished_rows finished.items) }
        ensures deposits { IfOk result (λ s. s.deposits.rows
            ≡ rows is_used_deposit deposits.items) }
    {
        let deposits = Reserved::from_entries(alloc, &deposits)?;
        Ok(Stability {
            words,
            finished,
            deposits,
        })
    }

    /// The sum of an epoch and a scale, which may be one that is still to come.
    fn sum_at(&self, epoch: u64, scale: u128) -> u128
        ensures sum { result ≡ sum_at self.now.words self.now.finished (epoch, scale) }
        ensures within { result ≤ OFFSET_MOST * P_OPENING }
    {
        if self.words.epoch == epoch && u128::from(self.words.scale) == scale {
            self.words.sum
        } else {
            self.finished_sum(epoch, scale)
        }
    }

    /// The finished sum of an epoch and a scale: one that is not kept is 0.
    fn finished_sum(&self, epoch: u64, scale: u128) -> u128
        ensures sum { result ≡ unwrap_or (lookup (is_place (epoch, scale)) self.now.finished) 0 }
        ensures within { result ≤ OFFSET_MOST * P_OPENING }
    {
        let found = self
            .finished
            .binary_search_by_key(&(epoch, scale), |sum| (sum.epoch, u128::from(sum.scale)));
        match found {
            Ok(at) => self.finished[at].sum,
            Err(_) => 0,
        }
    }

    /// Balance (micro-LUSD) and gain (gwei) of an account, which has nothing without a deposit.
    pub fn position_of(&self, account: u32) -> (u64, u64)
        ensures position { result ≡ position_at self.now account }
        ensures balance { result.0 ≤ self.now.words.total }
        ensures gain { result.1 ≤ self.now.words.coll }
    {
        match self.deposits.get(account) {
            Some(deposit) => position(deposit, &self.words, &self.four(deposit)),
            None => (0, 0),
        }
    }
}

/// A deposit that counts from now on.
fn left_now(words: &PoolWords, amount: u64) -> Deposit
    ensures { result ≡ deposit_now words.now amount }
{
    Deposit {
        amount,
        p: words.p,
        sum: words.sum,
        scale: words.scale,
        epoch: words.epoch,
    }
}

/// Puts a sum that was finished, if there is one, behind those that were finished before.
fn keep(sums: &mut Vec<FinishedSum>, finished: Option<FinishedSum>)
    requires { vec_len sums.old < vec_capacity sums.old }
    ensures items { sums.new.items ≡ with_last sums.old.items finished }
    ensures len { vec_len sums.new ≡ vec_len sums.old + room_for finished }
    ensures capacity { vec_capacity sums.new ≡ vec_capacity sums.old }
{
    if let Some(sum) = finished {
        sums.push_reserved(sum);
    }
}
