//! The 96 bytes of a reply, by what kind of reply it is.

ghost use Rattle.std.specs.Prelude.{◌≡◌, ◌≤◌, ◌/◌, ◌%◌, ◌^◌, length};
ghost use Rattle.liq_types.specs.declared.replies.Reply.TheVariants.{Said, Told, No};
ghost use Rattle.liq_replies96.specs.Replies.{reply96, bad96, no_memory96, made};

use crate::reply::{ACCEPTED, BAD, NO_MEMORY, REFUSED, Reply96, TOLD};
use liq_types::{Done, Info, Refusal, Reply, numbers_of, value_count};

/// The 96 bytes of a reply.
pub fn encode(reply: &Reply) -> Reply96
    ensures { result ≡ reply96 reply.now }
{
    match reply {
        Reply::Said(done) => accepted(done),
        Reply::Told(info) => reply_of_info(info),
        Reply::No(refusal) => refused(refusal),
    }
}

/// The 96 bytes that say that there is no command or query: the field that begins at this byte fits
/// none.
#[tactic(auto, unfolding(crate::specs::Replies::bad96))]
pub fn bad(place: u8) -> Reply96
    ensures { result ≡ bad96 place }
{
    of_words(BAD, 0, 1, &[place as u64])
}

/// The 96 bytes that say that there was no memory.
#[tactic(auto, unfolding(crate::specs::Replies::no_memory96))]
pub fn no_memory() -> Reply96
    ensures { result ≡ no_memory96 }
{
    of_words(NO_MEMORY, 0, 0, &[])
}

fn of_words(kind: u8, which: u8, count: u8, words: &[u64]) -> Reply96
    requires few { length words.now ≤ 11 }
    ensures { result ≡ made kind which count words.now }
{
    let mut values = [0; 11];
    values[..words.len()].copy_from_slice(words);
    Reply96 {
        kind,
        which,
        count,
        zero: [0; 5],
        values,
    }
}

#[tactic(auto, unfolding(crate::specs::Replies::reply96))]
fn accepted(done: &Done) -> Reply96
    ensures { result ≡ reply96 (Said done.now) }
{
    let count = value_count(done.kind);
    of_words(ACCEPTED, done.kind, count as u8, &done.values[..count])
}

#[tactic(auto, unfolding(crate::specs::Replies::reply96))]
fn reply_of_info(info: &Info) -> Reply96
    ensures { result ≡ reply96 (Told info.now) }
{
    let plain = |topic: u8, numbers: &[u64]| of_words(TOLD, topic, numbers.len() as u8, numbers);
    match info {
        Info::Wallet { coll, lusd } => plain(1, &[*coll, *lusd]),
        Info::Trove { coll, debt, stake } => plain(2, &[*coll, *debt, *stake]),
        Info::NoTrove => plain(2, &[]),
        Info::Deposit { balance, gain } => plain(3, &[*balance, *gain]),
        Info::NoDeposit => plain(3, &[]),
        Info::Pools { pools } => plain(4, pools),
        Info::System { words } => plain(5, words),
        Info::Next { number } => plain(6, &[*number]),
    }
}

#[tactic(auto, unfolding(crate::specs::Replies::reply96))]
fn refused(refusal: &Refusal) -> Reply96
    ensures { result ≡ reply96 (No refusal.now) }
{
    let (numbers, count) = numbers_of(refusal);
    let [code, first, second, third, fourth, fifth] = numbers;
    let words = [
        low(first),
        high(first),
        low(second),
        high(second),
        low(third),
        high(third),
        low(fourth),
        high(fourth),
        low(fifth),
        high(fifth),
    ];
    let count = count - 1;
    of_words(REFUSED, code as u8, count as u8, &words[..2 * count])
}

/// The numbers that a word holds.
const WORD: u128 = 1 << 64;

fn low(number: u128) -> u64
    ensures { result ≡ number % 2 ^ 64 }
{
    (number % WORD) as u64
}

fn high(number: u128) -> u64
    ensures { result ≡ number / 2 ^ 64 }
{
    (number / WORD) as u64
}
