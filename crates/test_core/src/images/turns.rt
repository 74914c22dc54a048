//! Changes of a sound image, one after the other, and what is then told of it.

use crate::checks::NOWHERE;
use crate::images::parts::{Rows, SOUND, image_of};
use liq_image_rules::first_unsound;
use liq_types::{Image, NoMemory};
use std::alloc::Global;

/// A word that becomes another one, a field of a row that does, by the row's index, or what is then
/// told.
#[derive(Clone, Copy)]
pub enum Turn {
    /// No rule is broken. What follows begins with the sound image again.
    Sound,
    /// This is the first rule that is broken. What follows begins with the sound image again.
    First(u8),
    /// This is the first rule that is broken. The changes stay.
    Also(u8),
    Price(u64),
    Minute(u64),
    Base(u64),
    FeeMinute(u64),
    Generation(u64),
    Limit(u64),
    Brought(u64),
    ActiveColl(u64),
    ActiveDebt(u64),
    DefaultColl(u64),
    DefaultDebt(u64),
    Reserve(u64),
    Surplus(u64),
    FeeColl(u64),
    FeeLusd(u64),
    SumColl(u128),
    SumDebt(u128),
    Stakes(u64),
    SnapStakes(u64),
    SnapColl(u64),
    P(u128),
    Scale(u64),
    Epoch(u64),
    Sum(u128),
    Total(u64),
    PoolColl(u64),
    WalletAccount(usize, u32),
    WalletColl(usize, u64),
    WalletLusd(usize, u64),
    TroveAccount(usize, u32),
    TroveColl(usize, u64),
    TroveDebt(usize, u64),
    TroveStake(usize, u64),
    TroveMarkColl(usize, u128),
    TroveMarkDebt(usize, u128),
    SurplusAccount(usize, u32),
    SurplusColl(usize, u64),
    FinishedEpoch(usize, u64),
    FinishedScale(usize, u64),
    FinishedSum(usize, u128),
    DepositAccount(usize, u32),
    DepositAmount(usize, u64),
    DepositP(usize, u128),
    DepositSum(usize, u128),
    DepositScale(usize, u64),
    DepositEpoch(usize, u64),
    ClientNumber(usize, u32),
    ClientKind(usize, u8),
    ClientValues(usize, [u64; 6]),
}

/// No rule is broken.
pub const NONE: u8 = 0;

// There was no memory for the image.
const NO_MEMORY: u8 = u8::MAX;

/// The first rule that the image breaks, or none.
pub fn rule_of(image: &Image) -> u8 {
    first_unsound(image, 0).unwrap_or(NONE)
}

/// The first rule that the sound image breaks, changed so.
pub fn told(alloc: Global, changes: &[Turn]) -> u8 {
    match changed(alloc, changes) {
        Ok(image) => rule_of(&image),
        Err(_) => NO_MEMORY,
    }
}

// What is told at a turn that is no change.
fn wanted(turn: &Turn) -> Option<u8> {
    match turn {
        Turn::Sound => Some(NONE),
        Turn::First(rule) | Turn::Also(rule) => Some(*rule),
        _ => None,
    }
}

/// The place of the first turn at which something else is told, along these from the sound image
/// on.
pub fn first_odd(alloc: Global, turns: &[Turn]) -> u64 {
    let mut start = 0;
    for (at, turn) in turns.iter().enumerate() {
        let Some(rule) = wanted(turn) else {
            continue;
        };
        if told(alloc, turns.get(start..at).unwrap_or(turns)) != rule {
            return at as u64;
        }
        if !matches!(turn, Turn::Also(_)) {
            start = at;
        }
    }
    NOWHERE
}

// The sound image, changed so.
fn changed(alloc: Global, changes: &[Turn]) -> Result<Image, NoMemory> {
    let mut rows = SOUND;
    for change in changes {
        change_row(&mut rows, *change);
    }
    let mut image = image_of(alloc, &rows)?;
    change_words(&mut image, changes);
    Ok(image)
}

/// Changes words of an image.
pub fn change_words(image: &mut Image, changes: &[Turn]) {
    for change in changes {
        change_word(image, *change);
    }
}

fn change_word(image: &mut Image, change: Turn) {
    match change {
        Turn::Price(price) => image.price = price,
        Turn::Minute(minute) => image.minute = minute,
        Turn::Base(base) => image.base = base,
        Turn::FeeMinute(fee_minute) => image.fee_minute = fee_minute,
        Turn::Generation(generation) => image.generation = generation,
        Turn::Limit(limit) => image.limit = limit,
        Turn::Brought(brought) => image.brought = brought,
        Turn::ActiveColl(active_coll) => image.active_coll = active_coll,
        Turn::ActiveDebt(active_debt) => image.active_debt = active_debt,
        Turn::DefaultColl(default_coll) => image.default_coll = default_coll,
        Turn::DefaultDebt(default_debt) => image.default_debt = default_debt,
        Turn::Reserve(reserve) => image.reserve = reserve,
        Turn::Surplus(surplus) => image.surplus = surplus,
        Turn::FeeColl(fee_coll) => image.fee_coll = fee_coll,
        Turn::FeeLusd(fee_lusd) => image.fee_lusd = fee_lusd,
        Turn::SumColl(sum_coll) => image.sum_coll = sum_coll,
        Turn::SumDebt(sum_debt) => image.sum_debt = sum_debt,
        Turn::Stakes(stakes) => image.stakes = stakes,
        Turn::SnapStakes(snap_stakes) => image.snap_stakes = snap_stakes,
        Turn::SnapColl(snap_coll) => image.snap_coll = snap_coll,
        Turn::P(p) => image.p = p,
        Turn::Scale(scale) => image.scale = scale,
        Turn::Epoch(epoch) => image.epoch = epoch,
        Turn::Sum(sum) => image.sum = sum,
        Turn::Total(total) => image.total = total,
        Turn::PoolColl(pool_coll) => image.pool_coll = pool_coll,
        _ => {}
    }
}

fn change_row(rows: &mut Rows, change: Turn) {
    match change {
        Turn::WalletAccount(at, account) => rows.wallets[at % 2].account = account,
        Turn::WalletColl(at, coll) => rows.wallets[at % 2].coll = coll,
        Turn::WalletLusd(at, lusd) => rows.wallets[at % 2].lusd = lusd,
        Turn::TroveAccount(at, account) => rows.troves[at % 2].account = account,
        Turn::TroveColl(at, coll) => rows.troves[at % 2].coll = coll,
        Turn::TroveDebt(at, debt) => rows.troves[at % 2].debt = debt,
        Turn::TroveStake(at, stake) => rows.troves[at % 2].stake = stake,
        Turn::TroveMarkColl(at, mark_coll) => rows.troves[at % 2].mark_coll = mark_coll,
        Turn::TroveMarkDebt(at, mark_debt) => rows.troves[at % 2].mark_debt = mark_debt,
        Turn::SurplusAccount(at, account) => rows.surplus_rows[at % 2].account = account,
        Turn::SurplusColl(at, coll) => rows.surplus_rows[at % 2].coll = coll,
        _ => change_pool_or_client(rows, change),
    }
}

fn change_pool_or_client(rows: &mut Rows, change: Turn) {
    match change {
        Turn::FinishedEpoch(at, epoch) => rows.finished[at % 3].epoch = epoch,
        Turn::FinishedScale(at, scale) => rows.finished[at % 3].scale = scale,
        Turn::FinishedSum(at, sum) => rows.finished[at % 3].sum = sum,
        Turn::DepositAccount(at, account) => rows.deposits[at % 3].account = account,
        Turn::DepositAmount(at, amount) => rows.deposits[at % 3].amount = amount,
        Turn::DepositP(at, p) => rows.deposits[at % 3].p = p,
        Turn::DepositSum(at, sum) => rows.deposits[at % 3].sum = sum,
        Turn::DepositScale(at, scale) => rows.deposits[at % 3].scale = scale,
        Turn::DepositEpoch(at, epoch) => rows.deposits[at % 3].epoch = epoch,
        Turn::ClientNumber(at, client) => rows.clients[at % 2].client = client,
        Turn::ClientKind(at, kind) => rows.clients[at % 2].kind = kind,
        Turn::ClientValues(at, values) => rows.clients[at % 2].values = values,
        _ => {}
    }
}
