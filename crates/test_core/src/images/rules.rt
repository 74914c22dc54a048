//! The eleven rules, each on both sides of its bounds, and their order.

use crate::checks::{NOWHERE, same};
use crate::images::parts::{SOUND, image_of, words};
use crate::images::turns::{NONE, Turn, change_words, first_odd, rule_of, told};
use Turn::{
    ActiveColl, ActiveDebt, Also, Base, Brought, ClientKind, ClientNumber, ClientValues,
    DefaultColl, DefaultDebt, DepositAccount, DepositAmount, DepositEpoch, DepositP, DepositScale,
    DepositSum, Epoch, FeeColl, FeeLusd, FeeMinute, FinishedEpoch, FinishedScale, FinishedSum,
    First, Generation, Limit, Minute, P, PoolColl, Price, Reserve, Scale, SnapColl, SnapStakes,
    Sound, Stakes, Sum, SumColl, SumDebt, Surplus, SurplusAccount, SurplusColl, Total,
    TroveAccount, TroveColl, TroveDebt, TroveMarkColl, TroveMarkDebt, TroveStake, WalletAccount,
    WalletColl, WalletLusd,
};
use liq_image_rules::entries;
use liq_types::{Image, NoMemory};
use std::alloc::Global;

/// Rule 1: each number within its bounds, and one of two limits.
const RANGES: [Turn; 53] = [
    Sound,
    Price(100_000_000),
    Sound,
    Price(99_999_999),
    First(1),
    Price(1_000_000_000_000),
    Sound,
    Price(1_000_000_000_001),
    First(1),
    Minute(1_000_000_000_000),
    Sound,
    Minute(1_000_000_000_001),
    First(1),
    FeeMinute(100),
    Sound,
    FeeMinute(101),
    First(1),
    Base(1_000_000_000_000_000_000),
    Sound,
    Base(1_000_000_000_000_000_001),
    First(1),
    Generation(0),
    First(1),
    Generation(68_719_476_736),
    Sound,
    Generation(68_719_476_737),
    First(1),
    Limit(0),
    First(1),
    Limit(999_999_999_999_999_999),
    First(1),
    Limit(1_000_000_000_000_000_000),
    Sound,
    Limit(1_000_000_000_000_000_001),
    First(1),
    Limit(9_999_999_999_999_999_999),
    First(1),
    Limit(10_000_000_000_000_000_001),
    First(1),
    Limit(1_000_000_000_000_000_000),
    Brought(1_000_000_000_000_000_000),
    WalletColl(0, 999_999_964_350_000_000),
    Sound,
    Limit(1_000_000_000_000_000_000),
    Brought(1_000_000_000_000_000_001),
    WalletColl(0, 999_999_964_350_000_001),
    First(1),
    Brought(10_000_000_000_000_000_000),
    WalletColl(0, 9_999_999_964_350_000_000),
    Sound,
    Brought(10_000_000_000_000_000_001),
    WalletColl(0, 9_999_999_964_350_000_001),
    First(1),
];

/// Rule 2: accounts and clients in range.
const ACCOUNTS: [Turn; 22] = [
    WalletAccount(1, 1_048_575),
    Sound,
    WalletAccount(1, 1_048_576),
    First(2),
    TroveAccount(1, 1_048_575),
    Sound,
    TroveAccount(1, 1_048_576),
    First(2),
    SurplusAccount(1, 1_048_575),
    Sound,
    SurplusAccount(1, 1_048_576),
    First(2),
    DepositAccount(2, 1_048_575),
    Sound,
    DepositAccount(2, 1_048_576),
    First(2),
    ClientNumber(1, 1_048_575),
    Sound,
    ClientNumber(1, 1_048_576),
    First(2),
    WalletAccount(0, 1_048_576),
    First(2),
];

/// Rule 3: collateral at home. In the last case the sum is 2^64 more than what was brought in.
const COLLATERAL: [Turn; 19] = [
    Brought(42_650_000_001),
    First(3),
    Brought(42_649_999_999),
    First(3),
    WalletColl(1, 1),
    First(3),
    ActiveColl(30_000_000_001),
    First(3),
    DefaultColl(3_800_000_001),
    First(3),
    Surplus(800_000_001),
    First(3),
    FeeColl(50_000_001),
    First(3),
    PoolColl(1_000_000_001),
    First(3),
    WalletColl(0, 9_223_372_043_854_775_808),
    WalletColl(1, 9_223_372_036_854_775_808),
    First(3),
];

/// Rule 4: LUSD at home, a reserve for each trove, and no more debt than the image's limit.
const LUSD: [Turn; 35] = [
    ActiveDebt(10_220_000_001),
    First(4),
    DefaultDebt(650_000_001),
    First(4),
    WalletLusd(1, 450_000_001),
    First(4),
    Total(5_000_000_001),
    First(4),
    FeeLusd(20_000_001),
    First(4),
    Reserve(400_000_001),
    First(4),
    Reserve(600_000_000),
    Total(4_800_000_000),
    First(4),
    Reserve(200_000_000),
    Total(5_200_000_000),
    First(4),
    WalletLusd(0, 9_223_372_041_854_775_808),
    WalletLusd(1, 9_223_372_037_304_775_808),
    First(4),
    DefaultDebt(9_999_999_989_780_000_000),
    WalletLusd(0, 9_999_999_994_130_000_000),
    Sound,
    DefaultDebt(9_999_999_989_780_000_001),
    WalletLusd(0, 9_999_999_994_130_000_001),
    First(4),
    Limit(1_000_000_000_000_000_000),
    DefaultDebt(999_999_989_780_000_000),
    WalletLusd(0, 999_999_994_130_000_000),
    Sound,
    Limit(1_000_000_000_000_000_000),
    DefaultDebt(999_999_989_780_000_001),
    WalletLusd(0, 999_999_994_130_000_001),
    First(4),
];

/// Rule 5: the surplus is the sum of its table.
const SURPLUS: [Turn; 10] = [
    SurplusColl(1, 300_000_001),
    First(5),
    SurplusColl(0, 499_999_999),
    First(5),
    Surplus(800_000_001),
    Brought(42_650_000_001),
    First(5),
    SurplusColl(0, 9_223_372_037_354_775_808),
    SurplusColl(1, 9_223_372_037_154_775_808),
    First(5),
];

/// Rule 6: each trove, and the sums per unit of stake.
const TROVES: [Turn; 39] = [
    TroveStake(0, 0),
    First(6),
    TroveStake(0, 1),
    Stakes(20_000_000_001),
    Sound,
    TroveStake(1, 20_000_000_001),
    First(6),
    TroveDebt(0, 2_000_000_000),
    ActiveDebt(8_000_000_000),
    WalletLusd(0, 2_780_000_000),
    Sound,
    TroveDebt(0, 1_999_999_999),
    ActiveDebt(7_999_999_999),
    WalletLusd(0, 2_779_999_999),
    First(6),
    TroveMarkColl(0, 200_000_000_000_000_000),
    Sound,
    TroveMarkColl(0, 200_000_000_000_000_001),
    First(6),
    TroveMarkDebt(1, 50_000_000_000_000_000),
    Sound,
    TroveMarkDebt(1, 50_000_000_000_000_001),
    First(6),
    SumColl(10_000_000_000_000_000_000_000_000_000_000_000_000),
    TroveMarkColl(0, 9_999_999_999_999_999_999_800_000_000_000_000_000),
    TroveMarkColl(1, 9_999_999_999_999_999_999_900_000_000_000_000_000),
    Sound,
    SumColl(10_000_000_000_000_000_000_000_000_000_000_000_001),
    TroveMarkColl(0, 10_000_000_000_000_000_000_000_000_000_000_000_001),
    TroveMarkColl(1, 10_000_000_000_000_000_000_000_000_000_000_000_001),
    First(6),
    SumDebt(10_000_000_000_000_000_000_000_000_000_000_000_000),
    TroveMarkDebt(0, 9_999_999_999_999_999_999_950_000_000_000_000_000),
    TroveMarkDebt(1, 9_999_999_999_999_999_999_990_000_000_000_000_000),
    Sound,
    SumDebt(10_000_000_000_000_000_000_000_000_000_000_000_001),
    TroveMarkDebt(0, 10_000_000_000_000_000_000_000_000_000_000_000_001),
    TroveMarkDebt(1, 10_000_000_000_000_000_000_000_000_000_000_000_001),
    First(6),
];

/// Rule 7: what is the sum of the troves, and the words of the last snapshot.
const ADDED_UP: [Turn; 28] = [
    Stakes(29_000_000_001),
    First(7),
    Stakes(28_999_999_999),
    First(7),
    TroveColl(0, 10_000_000_001),
    First(7),
    TroveDebt(1, 6_000_000_001),
    First(7),
    TroveColl(0, 9_223_372_046_854_775_808),
    TroveColl(1, 9_223_372_056_854_775_808),
    First(7),
    TroveDebt(0, 9_223_372_041_074_775_808),
    TroveDebt(1, 9_223_372_042_854_775_808),
    First(7),
    SnapStakes(0),
    SnapColl(0),
    Sound,
    SnapStakes(0),
    First(7),
    SnapColl(0),
    First(7),
    SnapStakes(30_000_000_000),
    Sound,
    SnapStakes(30_000_000_001),
    First(7),
    SnapStakes(1),
    SnapColl(1),
    Sound,
];

/// Rule 8: what is pending is in the default pool. In the last two cases a product is 2^128 more
/// than it may be, and the sum of two.
const PENDING: [Turn; 32] = [
    SumColl(200_000_000_000_000_001),
    First(8),
    SumDebt(50_000_000_000_000_001),
    First(8),
    DefaultColl(3_799_999_999),
    Brought(42_649_999_999),
    First(8),
    DefaultDebt(649_999_999),
    WalletLusd(0, 4_999_999_999),
    First(8),
    TroveColl(0, 9_223_372_036_854_775_808),
    TroveStake(0, 9_223_372_036_854_775_808),
    TroveMarkColl(0, 9_999_999_999_999_999_963_106_511_852_580_896_768),
    TroveMarkColl(1, 9_999_999_999_999_999_999_900_000_000_000_000_000),
    SumColl(10_000_000_000_000_000_000_000_000_000_000_000_000),
    ActiveColl(9_223_372_056_854_775_808),
    Stakes(9_223_372_056_854_775_808),
    Brought(9_223_372_069_504_775_808),
    First(8),
    TroveColl(0, 4_611_686_018_427_387_904),
    TroveStake(0, 4_611_686_018_427_387_904),
    TroveMarkDebt(0, 9_999_999_999_999_999_963_106_511_852_580_896_768),
    TroveColl(1, 4_611_686_018_427_387_904),
    TroveStake(1, 4_611_686_018_427_387_904),
    TroveMarkDebt(1, 9_999_999_999_999_999_963_106_511_852_580_896_768),
    TroveMarkColl(1, 200_000_000_000_000_000),
    TroveMarkColl(0, 200_000_000_000_000_000),
    SumDebt(10_000_000_000_000_000_000_000_000_000_000_000_000),
    ActiveColl(9_223_372_036_854_775_808),
    Stakes(9_223_372_036_854_775_808),
    Brought(9_223_372_049_504_775_808),
    First(8),
];

/// Rule 9: the Stability Pool's words and finished sums.
const WORDS: [Turn; 44] = [
    P(1_000_000_000),
    Sound,
    P(999_999_999),
    First(9),
    P(1_000_000_000_000_000_000),
    Sum(0),
    DepositSum(2, 0),
    Sound,
    P(1_000_000_000_000_000_000),
    Sum(1),
    DepositSum(2, 0),
    First(9),
    P(1_000_000_000_000_000_001),
    Sum(0),
    DepositSum(2, 0),
    First(9),
    Sum(5_500_000_000_000_000_001),
    First(9),
    P(500_000_000_000_000_001),
    First(9),
    Scale(200_000_000),
    DepositScale(2, 200_000_000),
    Sound,
    Scale(200_000_001),
    DepositScale(2, 200_000_001),
    First(9),
    Epoch(200_000_000),
    DepositEpoch(2, 200_000_000),
    Sound,
    Epoch(200_000_001),
    DepositEpoch(2, 200_000_001),
    First(9),
    Generation(1),
    First(9),
    FinishedSum(1, 11_000_000_000_000_000_001),
    First(9),
    FinishedScale(2, 1),
    First(9),
    FinishedEpoch(2, 2),
    First(9),
    FinishedScale(2, 2),
    First(9),
    FinishedScale(1, 18_446_744_073_709_551_615),
    Sound,
];

/// Rule 10: each deposit.
const DEPOSITS: [Turn; 40] = [
    DepositAmount(0, 10_000_000_000_000_000_001),
    First(10),
    DepositP(0, 1_000_000_000_000_000_001),
    First(10),
    DepositP(1, 999_999_999),
    First(10),
    DepositSum(0, 8),
    First(10),
    DepositSum(1, 101),
    First(10),
    DepositSum(2, 5_500_000_000_000_000_001),
    First(10),
    DepositSum(0, 0),
    DepositScale(0, 1),
    Sound,
    DepositSum(0, 1),
    DepositScale(0, 1),
    First(10),
    DepositSum(2, 0),
    DepositScale(2, 2),
    First(10),
    DepositSum(2, 0),
    DepositScale(2, 0),
    DepositEpoch(2, 2),
    First(10),
    DepositSum(2, 0),
    DepositEpoch(2, 2),
    First(10),
    DepositSum(0, 11_000_000_000_000_000_000),
    DepositScale(0, 3),
    Sound,
    DepositSum(0, 11_000_000_000_000_000_001),
    DepositScale(0, 3),
    First(10),
    DepositSum(0, 0),
    DepositScale(0, 18_446_744_073_709_551_615),
    Sound,
    DepositSum(2, 100),
    DepositScale(2, 0),
    Sound,
];

/// Rule 10 where finished sums stand in no order, or twice at a place: the first one counts.
const NO_ORDER: [Turn; 25] = [
    FinishedEpoch(0, 1),
    FinishedScale(0, 0),
    FinishedSum(0, 100),
    FinishedEpoch(2, 0),
    FinishedScale(2, 0),
    FinishedSum(2, 7),
    Sound,
    FinishedEpoch(0, 1),
    FinishedScale(0, 0),
    FinishedSum(0, 99),
    FinishedEpoch(2, 0),
    FinishedScale(2, 0),
    FinishedSum(2, 7),
    First(10),
    FinishedScale(1, 0),
    FinishedSum(1, 0),
    Sound,
    FinishedScale(1, 0),
    FinishedSum(1, 8),
    DepositSum(0, 8),
    First(10),
    FinishedSum(0, 6),
    FinishedScale(1, 0),
    FinishedSum(1, 7),
    First(10),
];

/// Rule 11: kept replies.
const REPLIES: [Turn; 8] = [
    ClientValues(0, [4_220_000_000, 20_000_000, 1, 0, 0, 0]),
    First(11),
    ClientKind(0, 2),
    First(11),
    ClientKind(1, 13),
    First(11),
    ClientValues(0, [0, 0, 0, 0, 0, 1]),
    First(11),
];

/// All rules broken, the last one first: each time the least is told.
const IN_ORDER: [Turn; 22] = [
    ClientValues(0, [4_220_000_000, 20_000_000, 1, 0, 0, 0]),
    Also(11),
    DepositSum(0, 8),
    Also(10),
    Scale(200_000_001),
    Also(9),
    SumDebt(50_000_000_000_000_001),
    Also(8),
    Stakes(29_000_000_001),
    Also(7),
    TroveDebt(0, 1_999_999_999),
    Also(6),
    SurplusColl(1, 300_000_001),
    Also(5),
    FeeLusd(20_000_001),
    Also(4),
    FeeColl(50_000_001),
    Also(3),
    ClientNumber(1, 1_048_576),
    Also(2),
    Price(0),
    Also(1),
];

/// What each list of turns is about.
const LISTS: [(&str, &[Turn]); 13] = [
    ("each number within its bounds", &RANGES),
    ("accounts and clients", &ACCOUNTS),
    ("collateral at home", &COLLATERAL),
    ("LUSD at home", &LUSD),
    ("the surplus", &SURPLUS),
    ("each trove", &TROVES),
    ("what is the sum of the troves", &ADDED_UP),
    ("what is pending", &PENDING),
    ("words and finished sums", &WORDS),
    ("each deposit", &DEPOSITS),
    ("finished sums in no order", &NO_ORDER),
    ("kept replies", &REPLIES),
    ("in their order", &IN_ORDER),
];

#[test]
fn broken_rules_are_told(rt: HostRuntime) {
    for (what, turns) in &LISTS {
        same(&rt, first_odd(rt.alloc(), turns), NOWHERE, what);
    }
}

/// How many values the reply to each kind of command has.
const KINDS: [(u8, usize); 16] = [
    (1, 0),
    (2, 1),
    (3, 0),
    (4, 0),
    (5, 0),
    (6, 2),
    (7, 3),
    (8, 2),
    (9, 2),
    (10, 2),
    (11, 2),
    (12, 6),
    (13, 4),
    (14, 4),
    (15, 1),
    (16, 1),
];

/// So many values are not 0.
const SHOWN: [[u64; 6]; 7] = [
    [0, 0, 0, 0, 0, 0],
    [1, 0, 0, 0, 0, 0],
    [1, 1, 0, 0, 0, 0],
    [1, 1, 1, 0, 0, 0],
    [1, 1, 1, 1, 0, 0],
    [1, 1, 1, 1, 1, 0],
    [1, 1, 1, 1, 1, 1],
];

#[test]
fn replies_have_the_values_of_their_kind(rt: HostRuntime) {
    for (kind, count) in &KINDS {
        for (shown, values) in SHOWN.iter().enumerate() {
            let want = if shown > *count { 11 } else { NONE };
            let changes = [ClientKind(1, *kind), ClientValues(1, *values)];
            let rule = told(rt.alloc(), &changes);
            same(&rt, u64::from(rule), u64::from(want), "a kind");
        }
    }
}

/// The words in which the image that the protocol opens with differs from the sound one, but for
/// the product.
const OPENING: [Turn; 23] = [
    Minute(0),
    Base(0),
    FeeMinute(0),
    Generation(1),
    Brought(0),
    ActiveColl(0),
    ActiveDebt(0),
    DefaultColl(0),
    DefaultDebt(0),
    Reserve(0),
    Surplus(0),
    FeeColl(0),
    FeeLusd(0),
    SumColl(0),
    SumDebt(0),
    Stakes(0),
    SnapStakes(0),
    SnapColl(0),
    Scale(0),
    Epoch(0),
    Sum(0),
    Total(0),
    PoolColl(0),
];

/// The first rule that the opening image breaks, with this product.
fn told_of_opening(alloc: Global, p: u128) -> u8 {
    let mut image = words(alloc);
    change_words(&mut image, &OPENING);
    image.p = p;
    rule_of(&image)
}

/// Products, and what is told of each.
const PRODUCTS: [(u128, u8); 3] = [
    (1_000_000_000_000_000_000, NONE),
    (1_000_000_000, NONE),
    (999_999_999, 9),
];

#[test]
fn the_opening_image_is_sound(rt: HostRuntime) {
    for (p, want) in &PRODUCTS {
        let rule = told_of_opening(rt.alloc(), *p);
        same(&rt, u64::from(rule), u64::from(*want), "the opening image");
    }
}

/// How many entries each table of the sound image has.
const ENTRIES: [u64; 6] = [2, 2, 2, 3, 3, 2];

/// How many entries are made of each table.
fn entry_counts(alloc: Global) -> [u64; 6] {
    match image_of(alloc, &SOUND) {
        Ok(image) => counts_of(alloc, &image),
        Err(_) => [u64::MAX; 6],
    }
}

fn counts_of(alloc: Global, image: &Image) -> [u64; 6] {
    [
        count(entries::wallets(alloc, &image.wallets)),
        count(entries::troves(alloc, &image.troves)),
        count(entries::surplus(alloc, &image.surplus_rows)),
        count(entries::finished_sums(alloc, &image.finished)),
        count(entries::deposits(alloc, &image.deposits)),
        count(entries::clients(alloc, &image.clients)),
    ]
}

/// How many there are, where there was memory for them.
fn count<T: Drop>(made: Result<Vec<T>, NoMemory>) -> u64 {
    match made {
        Ok(made) => made.len() as u64,
        Err(_) => u64::MAX,
    }
}

#[test]
fn entries_are_those_of_the_rows(rt: HostRuntime) {
    let counts = entry_counts(rt.alloc());
    for at in 0..ENTRIES.len() {
        same(&rt, counts[at], ENTRIES[at], "entries");
    }
}
