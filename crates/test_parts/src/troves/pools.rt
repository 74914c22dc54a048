//! Small pools: deposits, offsets and withdrawals in turn, and what is then read of the words and
//! of each deposit.

use crate::checks::{same, shows};
use liq_stability::{Deposit, FinishedSum, PoolWords, Stability, offset_words, position};
use liq_types::amounts::{LIM, OFFSET_MOST};
use liq_types::{NoMemory, Refusal};
use std::alloc::Global;
use std::process::Abort;

const TENTH: u64 = LIM / 10;

/// What is done to a pool, or seen of it.
#[derive(Clone, Copy)]
enum Turn {
    /// The account puts in LUSD, and gets this gain.
    Put(u32, u64, u64),
    /// Debt is taken over for collateral.
    Offset(u64, u64),
    /// The account asks for so much LUSD, and gets LUSD and its gain.
    Draw(u32, u64, Result<(u64, u64), Refusal>),
    /// Product, scale, epoch, sum, LUSD and collateral.
    Words([u128; 6]),
    /// Just these sums are finished: epoch, scale and sum.
    Finished([Option<[u128; 3]>; 2]),
    /// Balance and gain of the account.
    Stands(u32, u64, u64),
    /// The account has no deposit.
    Gone(u32),
}

use Turn::{Draw, Finished, Gone, Offset, Put, Stands, Words};

const RISES: [Turn; 7] = [
    Put(1, TENTH, 0),
    Offset(TENTH - 1, 0),
    Words([1_000_000_000, 1, 0, 0, 1, 0]),
    // No collateral came, so no sum is finished.
    Finished([None, None]),
    Put(2, LIM - 1, 0),
    Offset(LIM - 1, LIM),
    Gone(0),
];

/// Scales have risen: once, and three times at once.
const RISEN: PoolWords = PoolWords {
    p: 100_000_000_000_000_000,
    scale: 4,
    epoch: 0,
    sum: 0,
    total: 1,
    coll: LIM,
};

const RISEN_SUM: FinishedSum = FinishedSum {
    epoch: 0,
    scale: 1,
    sum: 1_000_000_000,
};

const RISEN_FIRST: Deposit = Deposit {
    amount: TENTH,
    p: 1_000_000_000_000_000_000,
    sum: 0,
    scale: 0,
    epoch: 0,
};

const RISEN_SECOND: Deposit = Deposit {
    amount: LIM - 1,
    p: 1_000_000_000,
    sum: 0,
    scale: 1,
    epoch: 0,
};

const SEEN: [Turn; 5] = [
    Words([
        100_000_000_000_000_000,
        4,
        0,
        0,
        1,
        10_000_000_000_000_000_000,
    ]),
    Finished([Some([0, 1, 1_000_000_000]), None]),
    Gone(0),
    Stands(1, 0, 1),
    Stands(2, 0, LIM - 1),
];

/// And twice at once.
const FURTHER: [Turn; 7] = [
    Put(3, LIM - 1, 0),
    Offset(LIM - 1, 0),
    Words([
        10_000_000_000_000_000,
        6,
        0,
        0,
        1,
        10_000_000_000_000_000_000,
    ]),
    Finished([Some([0, 1, 1_000_000_000]), None]),
    Stands(1, 0, 1),
    Stands(2, 0, LIM - 1),
    Stands(3, 0, 0),
];

/// Two share an offset, and one of them puts in more.
const SHARED: [Turn; 12] = [
    Put(1, 100, 0),
    Put(2, 200, 0),
    Offset(100, 70),
    Words([
        666_666_666_666_666_666,
        0,
        0,
        233_333_333_333_333_333,
        200,
        70,
    ]),
    Stands(1, 66, 23),
    Stands(2, 133, 46),
    Put(1, 50, 23),
    Offset(50, 30),
    Words([
        533_333_333_333_333_332,
        0,
        0,
        313_333_333_333_333_332,
        200,
        77,
    ]),
    Stands(1, 92, 13),
    Stands(2, 106, 62),
    Finished([None, None]),
];

/// Withdrawals: of a part, of all that is left, and where there is nothing.
const DRAWN: [Turn; 12] = [
    Draw(1, 1, Err(Refusal::NoDeposit { account: 1 })),
    Put(1, 100, 0),
    Put(2, 200, 0),
    Offset(100, 70),
    Draw(1, 0, Ok((0, 23))),
    Draw(1, 6, Ok((6, 0))),
    Draw(2, 130, Ok((130, 46))),
    Draw(2, 1_000_000, Ok((3, 0))),
    Stands(1, 60, 0),
    Gone(2),
    Draw(2, 0, Err(Refusal::NoDeposit { account: 2 })),
    Words([
        666_666_666_666_666_666,
        0,
        0,
        233_333_333_333_333_333,
        61,
        1,
    ]),
];

/// All of the pool is taken: an epoch ends, and what was gained in it stays.
const ENDED: [Turn; 15] = [
    Put(2, 4_000_000_000, 0),
    Offset(4_000_000_000, 9_431_279_620),
    Words([1_000_000_000_000_000_000, 0, 1, 0, 0, 9_431_279_620]),
    Stands(2, 0, 9_431_279_620),
    Put(1, 500, 0),
    Offset(200, 100),
    Stands(1, 300, 100),
    Stands(2, 0, 9_431_279_620),
    Offset(300, 50),
    Finished([
        Some([0, 0, 2_357_819_905_000_000_000]),
        Some([1, 0, 300_000_000_000_000_000]),
    ]),
    Draw(2, 0, Ok((0, 9_431_279_620))),
    Draw(1, 0, Ok((0, 150))),
    Gone(1),
    Gone(2),
    Words([1_000_000_000_000_000_000, 0, 2, 0, 0, 0]),
];

fn put<R: Abort>(rt: &R, pool: &mut Stability, account: u32, amount: u64, gain: u64) {
    shows(rt, "memory", pool.reserve(Some(account), 0).is_ok());
    let total = pool.words().total;
    shows(rt, "within the limit", amount >= 1 && amount <= LIM - total);
    same(rt, &pool.provide(account, amount), &gain, "the gain");
}

/// The two forms of an offset agree.
fn take_over<R: Abort>(rt: &R, pool: &mut Stability, debt: u64, coll: u64) {
    shows(rt, "memory", pool.reserve(None, 1).is_ok());
    let words = *pool.words();
    shows(rt, "the pool has it", debt >= 1 && debt <= words.total);
    let most = u128::from(OFFSET_MOST) * u128::from(debt);
    shows(rt, "its worth", u128::from(coll) <= most);
    shows(rt, "within the limit", coll <= LIM - words.coll);
    shows(rt, "few rises", words.scale <= 1000 && words.epoch <= 1000);
    let (after, _) = offset_words(&words, debt, coll);
    pool.offset(debt, coll);
    same(rt, &read(pool.words()), &read(&after), "both forms");
}

fn read(words: &PoolWords) -> [u128; 6] {
    [
        words.p,
        u128::from(words.scale),
        u128::from(words.epoch),
        words.sum,
        u128::from(words.total),
        u128::from(words.coll),
    ]
}

/// Balance and gain of an account.
fn stands(pool: &Stability, account: u32) -> Option<(u64, u64)> {
    let deposit = pool.deposit(account)?;
    Some(position(deposit, pool.words(), &pool.four(deposit)))
}

fn finished(pool: &Stability, index: u64) -> Option<[u128; 3]> {
    let sum = pool.finished(index)?;
    Some([u128::from(sum.epoch), u128::from(sum.scale), sum.sum])
}

fn check_finished<R: Abort>(rt: &R, pool: &Stability, sums: [Option<[u128; 3]>; 2]) {
    let [first, second] = sums;
    same(rt, &finished(pool, 0), &first, "the first sum");
    same(rt, &finished(pool, 1), &second, "the second sum");
    same(rt, &finished(pool, 2), &None, "no third sum");
    same(rt, &finished(pool, u64::MAX), &None, "no last sum");
}

fn take_turn<R: Abort>(rt: &R, pool: &mut Stability, turn: Turn) {
    match turn {
        Put(account, amount, gain) => put(rt, pool, account, amount, gain),
        Offset(debt, coll) => take_over(rt, pool, debt, coll),
        Draw(account, most, want) => same(rt, &pool.withdraw(account, most), &want, "drawn"),
        Words(words) => same(rt, &read(pool.words()), &words, "the words"),
        Finished(sums) => check_finished(rt, pool, sums),
        Stands(account, balance, gain) => {
            same(
                rt,
                &stands(pool, account),
                &Some((balance, gain)),
                "a position",
            );
        }
        Gone(account) => shows(rt, "no deposit", pool.deposit(account).is_none()),
    }
}

fn take_turns<R: Abort>(rt: &R, pool: &mut Stability, turns: &[Turn]) {
    for each in turns {
        take_turn(rt, pool, *each);
    }
}

fn risen_anew(alloc: Global) -> Result<Stability, NoMemory> {
    let Ok(sums) = Vec::from_slice(alloc, &[RISEN_SUM]) else {
        return Err(NoMemory);
    };
    let Ok(deposits) = Vec::from_slice(alloc, &[(1, RISEN_FIRST), (2, RISEN_SECOND)]) else {
        return Err(NoMemory);
    };
    Stability::from_parts(alloc, RISEN, sums, deposits)
}

fn kept<R: Abort>(rt: &R, pool: &Stability, account: u32, want: &Deposit) {
    let got = pool.deposit(account).map(numbers);
    same(rt, &got, &Some(numbers(want)), "a deposit");
}

fn numbers(deposit: &Deposit) -> [u128; 5] {
    [
        u128::from(deposit.amount),
        deposit.p,
        deposit.sum,
        u128::from(deposit.scale),
        u128::from(deposit.epoch),
    ]
}

#[test]
fn scales_rise(rt: HostRuntime) {
    let mut pool = Stability::new(rt.alloc());
    take_turns(&rt, &mut pool, &RISES);
    take_turns(&rt, &mut pool, &SEEN);
    kept(&rt, &pool, 1, &RISEN_FIRST);
    kept(&rt, &pool, 2, &RISEN_SECOND);
}

/// The same pool made of its parts reads the same, and goes on alike.
#[test]
fn scales_rise_on(rt: HostRuntime) {
    let Ok(mut pool) = risen_anew(rt.alloc()) else {
        shows(&rt, "memory", false);
        return;
    };
    take_turns(&rt, &mut pool, &SEEN);
    kept(&rt, &pool, 1, &RISEN_FIRST);
    kept(&rt, &pool, 2, &RISEN_SECOND);
    take_turns(&rt, &mut pool, &FURTHER);
}

#[test]
fn small_pools(rt: HostRuntime) {
    take_turns(&rt, &mut Stability::new(rt.alloc()), &SHARED);
    take_turns(&rt, &mut Stability::new(rt.alloc()), &DRAWN);
    take_turns(&rt, &mut Stability::new(rt.alloc()), &ENDED);
}
