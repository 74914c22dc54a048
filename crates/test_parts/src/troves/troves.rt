//! The troves: the limit of the sums, and small examples from their start and made anew.

ghost use Rattle.std.specs.Prelude.{◌≡◌, []};
ghost use Rattle.liq_tables.specs.WithRoom.{HasRoom};
ghost use Rattle.test_parts.specs.World.{fresh_sums};

use crate::checks::{same, shows};
use liq_troves::{Sums, Trove, Troves, entire, key};
use liq_types::amounts::LIM;
use liq_types::{NoMemory, Refusal};
use std::alloc::Global;
use std::process::Abort;

/// Collateral, debt, stake, and the marks of both sums.
fn read(trove: &Trove) -> [u128; 5] {
    [
        u128::from(trove.coll),
        u128::from(trove.debt),
        u128::from(trove.stake),
        trove.mark_coll,
        trove.mark_debt,
    ]
}

/// The sums of collateral and debt, the stakes, and the stakes and collateral of the snapshot.
fn sums(sums: &Sums) -> [u128; 5] {
    [
        sums.coll,
        sums.debt,
        u128::from(sums.stakes),
        u128::from(sums.snap_stakes),
        u128::from(sums.snap_coll),
    ]
}

/// Makes room for an account.
fn room<R: Abort>(rt: &R, troves: &mut Troves, account: u32)
    ensures rows { troves.new.table.rows ≡ troves.old.table.rows }
    ensures sums { troves.new.sums ≡ troves.old.sums }
    ensures room { HasRoom troves.new.table account }
{
    shows(rt, "memory", troves.reserve(account).is_ok());
}

/// A redistribution.
fn share<R: Abort>(rt: &R, troves: &mut Troves, coll: u64, debt: u64) -> Result<(), Refusal> {
    shows(rt, "stakes", troves.sums().stakes >= 1);
    shows(rt, "within the limit", coll <= LIM && debt <= LIM);
    troves.redistribute(coll, debt)
}

#[test]
fn sum_limit(rt: HostRuntime) {
    let mut troves = Troves::new(rt.alloc());
    room(&rt, &mut troves, 1);
    troves.set(1, 1, 2_000_000_000);
    same(
        &rt,
        &sums(troves.sums()),
        &[0, 0, 1, 0, 0],
        "one unit of stake",
    );
    same(
        &rt,
        &share(&rt, &mut troves, LIM, 0),
        &Ok(()),
        "within the limit",
    );
    let most = 10_000_000_000_000_000_000_000_000_000_000_000_000;
    same(
        &rt,
        &sums(troves.sums()),
        &[most, 0, 1, 0, 0],
        "at the limit",
    );
    let sum = 10_000_000_000_000_000_001_000_000_000_000_000_000;
    same(
        &rt,
        &share(&rt, &mut troves, 1, 0),
        &Err(Refusal::SumLimit { sum }),
        "past it",
    );
    same(
        &rt,
        &sums(troves.sums()),
        &[most, 0, 1, 0, 0],
        "nothing changes",
    );
}

// Of two troves the first was given to the second, stakes were snapped, and then a third one came.
const SECOND: Trove = Trove {
    coll: 12_660_000_000,
    debt: 4_220_000_000,
    stake: 12_660_000_000,
    mark_coll: 0,
    mark_debt: 0,
};

const THIRD: Trove = Trove {
    coll: 10_000_000_000,
    debt: 4_220_000_000,
    stake: 6_012_024_048,
    mark_coll: 663_333_333_333_333_333,
    mark_debt: 333_333_333_333_333_333,
};

const SUMS: Sums = Sums {
    coll: 663_333_333_333_333_333,
    debt: 333_333_333_333_333_333,
    stakes: 18_672_024_048,
    snap_stakes: 12_660_000_000,
    snap_coll: 21_057_800_000,
};

/// The same from its start.
fn small<R: Abort>(rt: &R, troves: &mut Troves)
    requires rows { troves.old.table.rows ≡ [] }
    requires sums { troves.old.sums ≡ fresh_sums 0 }
{
    room(rt, troves, 1);
    troves.set(1, 8_440_000_000, 4_220_000_000);
    room(rt, troves, 2);
    troves.set(2, 12_660_000_000, 4_220_000_000);
    same(rt, &troves.count(), &2, "troves");
    same(
        rt,
        &troves.remove(1).stake,
        &8_440_000_000,
        "the first's stake",
    );
    shows(rt, "stakes", troves.sums().stakes >= 1);
    shows(
        rt,
        "shared",
        troves.redistribute(8_397_800_000, 4_220_000_000).is_ok(),
    );
    troves.snapshot(21_057_800_000);
    room(rt, troves, 3);
    troves.set(3, 10_000_000_000, 4_220_000_000);
}

fn made_anew(alloc: Global) -> Result<Troves, NoMemory> {
    let Ok(rows) = Vec::from_slice(alloc, &[(2, SECOND), (3, THIRD)]) else {
        return Err(NoMemory);
    };
    Troves::from_rows(alloc, rows, SUMS)
}

/// There is no first trove, and these are the second and the third, and the sums.
fn check<R: Abort>(rt: &R, troves: &Troves, second: &Trove, third: Option<Trove>, want: &Sums) {
    same(rt, &sums(troves.sums()), &sums(want), "the sums");
    shows(rt, "no first trove", troves.get(1).is_none());
    same(
        rt,
        &troves.get(2).map(read),
        &Some(read(second)),
        "the second trove",
    );
    let third = third.map(|trove| read(&trove));
    same(rt, &troves.get(3).map(read), &third, "the third trove");
    let count = if third.is_some() { 2 } else { 1 };
    same(rt, &troves.count(), &count, "troves");
}

#[test]
fn small_example(rt: HostRuntime) {
    let mut troves = Troves::new(rt.alloc());
    small(&rt, &mut troves);
    check(&rt, &troves, &SECOND, Some(THIRD), &SUMS);
    let Ok(troves) = made_anew(rt.alloc()) else {
        shows(&rt, "memory", false);
        return;
    };
    check(&rt, &troves, &SECOND, Some(THIRD), &SUMS);
}

#[test]
fn amounts_and_keys(rt: HostRuntime) {
    // One unit of each stays behind.
    same(
        &rt,
        &entire(&SECOND, &SUMS),
        &(21_057_799_999, 8_439_999_999),
        "with its part",
    );
    same(
        &rt,
        &entire(&THIRD, &SUMS),
        &(10_000_000_000, 4_220_000_000),
        "nothing pending",
    );
    same(&rt, &key(&SECOND), &333_333_333_333_333_333, "a key");
    same(
        &rt,
        &key(&THIRD),
        &368_593_333_344_564_160,
        "a key of a marked trove",
    );
}

// Of two troves the first is liquidated: a part of it goes to the Stability Pool, and the second
// takes over the rest.
const LEFT: Trove = Trove {
    coll: 100_000_000_000,
    debt: 4_220_000_000,
    stake: 100_000_000_000,
    mark_coll: 0,
    mark_debt: 0,
};

const LEFT_SUMS: Sums = Sums {
    coll: 5_187_203_800_000_000,
    debt: 2_200_000_000_000_000,
    stakes: 100_000_000_000,
    snap_stakes: 100_000_000_000,
    snap_coll: 100_518_720_380,
};

/// The same from its start.
fn left<R: Abort>(rt: &R, troves: &mut Troves)
    requires rows { troves.old.table.rows ≡ [] }
    requires sums { troves.old.sums ≡ fresh_sums 0 }
{
    room(rt, troves, 1);
    troves.set(1, 10_000_000_000, 4_220_000_000);
    room(rt, troves, 2);
    troves.set(2, 100_000_000_000, 4_220_000_000);
    same(rt, &troves.count(), &2, "troves");
    let _ = troves.remove(1);
    shows(rt, "stakes", troves.sums().stakes >= 1);
    shows(
        rt,
        "shared",
        troves.redistribute(518_720_380, 220_000_000).is_ok(),
    );
    troves.snapshot(100_518_720_380);
}

fn left_anew(alloc: Global) -> Result<Troves, NoMemory> {
    let Ok(rows) = Vec::from_slice(alloc, &[(2, LEFT)]) else {
        return Err(NoMemory);
    };
    Troves::from_rows(alloc, rows, LEFT_SUMS)
}

#[test]
fn left_by_a_liquidation(rt: HostRuntime) {
    same(
        &rt,
        &entire(&LEFT, &LEFT_SUMS),
        &(100_518_720_380, 4_440_000_000),
        "with its part",
    );
    let mut troves = Troves::new(rt.alloc());
    left(&rt, &mut troves);
    check(&rt, &troves, &LEFT, None, &LEFT_SUMS);
    let Ok(troves) = left_anew(rt.alloc()) else {
        shows(&rt, "memory", false);
        return;
    };
    check(&rt, &troves, &LEFT, None, &LEFT_SUMS);
}
