//! The lowest troves: how many are taken, each by the mode of its moment and with what those before
//! it left.

ghost use Rattle.std.specs.Prelude.{◌≡◌, IsTrue};
ghost use Rattle.test_parts.specs.World.{IsSmall};

use crate::checks::{same, shows};
use crate::plans::read::parts;
use crate::plans::world::{FIRST, SECOND, market, three, two};
use liq_liquidation::{LowestFault, Victim, plan_lowest};
use liq_stability::PoolWords;
use liq_types::{Refusal, Steps};
use std::alloc::Global;
use std::process::Abort;
use std::sync::ledger::Ledger;

fn is_small(own: (u64, u64)) -> bool
    ensures { IsTrue result → IsSmall own }
{
    own.0 >= 1 && own.0 <= 1_000_000_000_000 && own.1 >= 2_000_000_000 && own.1 <= 1_000_000_000_000
}

/// A pool with so much LUSD.
fn pool(total: u64) -> PoolWords {
    PoolWords {
        p: 1_000_000_000_000_000_000,
        scale: 0,
        epoch: 0,
        sum: 0,
        total,
        coll: 0,
    }
}

/// The account of a victim and what becomes of it.
type Struck = [u64; 7];

/// The first two victims, and how many they are; or the refusal, or that there is no memory.
type Answer = Result<([Option<Struck>; 2], usize), Option<Refusal>>;

fn struck_of(victim: &Victim) -> Struck {
    let mut struck = [u64::from(victim.account); 7];
    struck[1..].copy_from_slice(&parts(&victim.one));
    struck
}

fn told(answer: &Result<Vec<Victim>, LowestFault>) -> Answer {
    match answer {
        Ok(victims) => {
            let first = victims.first().map(struck_of);
            let second = victims.get(1).map(struck_of);
            Ok(([first, second], victims.len()))
        }
        Err(LowestFault::No(refusal)) => Err(Some(*refusal)),
        Err(LowestFault::NoMemory) => Err(None),
    }
}

/// Of two troves one stays, so at most the first is taken: the price, the LUSD of the Stability
/// Pool, how many are asked for, and what becomes of the first.
const TWO: [([u64; 3], Result<Struck, Refusal>); 4] = [
    (
        [560_000_000, 4_220_000_000, 5],
        Ok([
            1,
            41_446_428,
            4_220_000_000,
            8_247_839_286,
            0,
            0,
            150_714_286,
        ]),
    ),
    (
        [500_000_000, 4_000_000_000, 64],
        Ok([1, 42_200_000, 0, 0, 4_220_000_000, 8_397_800_000, 0]),
    ),
    (
        [550_000_000, 4_219_999_999, 1],
        Err(Refusal::PoolTooSmall {
            total: 4_219_999_999,
            debt: 4_220_000_000,
        }),
    ),
    (
        [1_000_000_000, 4_220_000_000, 64],
        Err(Refusal::NotLiquidatable {
            coll: 8_440_000_000,
            debt: 4_220_000_000,
            price: 1_000_000_000,
            total_coll: 21_100_000_000,
            total_debt: 8_440_000_000,
        }),
    ),
];

fn lowest_of_two<R: Abort, L: Ledger>(
    rt: &R,
    alloc: Global,
    row: [u64; 3],
    steps: &mut Steps<L>,
) -> Answer {
    let [price, total, n] = row;
    shows(rt, "a price", price >= 1 && price <= 1_000_000_000_000);
    shows(rt, "a number", n >= 1 && n <= 64);
    let Ok(world) = two(alloc, FIRST, SECOND, steps) else {
        return Err(None);
    };
    let m = market(price, 21_100_000_000, 8_440_000_000, 2);
    told(&plan_lowest(alloc, &m, &world.troves, &world.order, &pool(total), n))
}

/// Three troves and a call: the victims in order, as far as there are some.
#[derive(Clone, Copy)]
struct Row {
    troves: [(u64, u64); 3],
    pool: u64,
    n: u64,
    want: [Option<Struck>; 2],
}

const TIGHT: [(u64, u64); 3] = [
    (10_500_000_000, 10_000_000_000),
    (10_800_000_000, 10_000_000_000),
    (14_000_000_000, 10_000_000_000),
];

/// The first where the pool takes over all of it.
const FIRST_OFFSET: Option<Struck> = Some([1, 52_500_000, 10_000_000_000, 10_447_500_000, 0, 0, 0]);

const THREE: [Row; 5] = [
    // The first leaves the others in Normal Mode, so the second may not be liquidated any more.
    Row {
        troves: [
            (10_500_000_000, 10_000_000_000),
            (12_000_000_000, 10_000_000_000),
            (20_000_000_000, 10_000_000_000),
        ],
        pool: 20_000_000_000,
        n: 64,
        want: [FIRST_OFFSET, None],
    },
    // It leaves them in Recovery Mode.
    Row {
        troves: [
            (10_500_000_000, 10_000_000_000),
            (12_000_000_000, 10_000_000_000),
            (14_000_000_000, 10_000_000_000),
        ],
        pool: 20_000_000_000,
        n: 64,
        want: [
            FIRST_OFFSET,
            Some([
                2,
                55_000_000,
                10_000_000_000,
                10_945_000_000,
                0,
                0,
                1_000_000_000,
            ]),
        ],
    },
    // With an empty pool the second has taken over its part of the first.
    Row {
        troves: TIGHT,
        pool: 0,
        n: 64,
        want: [
            Some([1, 52_500_000, 0, 0, 10_000_000_000, 10_447_500_000, 0]),
            Some([2, 76_748_588, 0, 0, 14_354_838_709, 15_272_969_153, 0]),
        ],
    },
    // The pool has only a part left for the second.
    Row {
        troves: TIGHT,
        pool: 12_000_000_000,
        n: 2,
        want: [
            FIRST_OFFSET,
            Some([
                2,
                54_000_000,
                2_000_000_000,
                2_149_200_000,
                8_000_000_000,
                8_596_800_000,
                0,
            ]),
        ],
    },
    // No more than one is asked for.
    Row {
        troves: TIGHT,
        pool: 12_000_000_000,
        n: 1,
        want: [FIRST_OFFSET, None],
    },
];

fn lowest_of_three<R: Abort, L: Ledger>(
    rt: &R,
    alloc: Global,
    row: &Row,
    steps: &mut Steps<L>,
) -> Answer {
    let [first, second, third] = row.troves;
    shows(rt, "a first trove", is_small(first));
    shows(rt, "a second trove", is_small(second));
    shows(rt, "a third trove", is_small(third));
    shows(rt, "a number", row.n >= 1 && row.n <= 64);
    let Ok(world) = three(alloc, first, second, third, steps) else {
        return Err(None);
    };
    let coll = first.0 + second.0 + third.0;
    let m = market(1_000_000_000, coll, first.1 + second.1 + third.1, 3);
    told(&plan_lowest(
        alloc,
        &m,
        &world.troves,
        &world.order,
        &pool(row.pool),
        row.n,
    ))
}

pub fn check<R: Abort, L: Ledger>(rt: &R, alloc: Global, steps: &mut Steps<L>) {
    for (row, want) in TWO {
        let want = match want {
            Ok(struck) => Ok(([Some(struck), None], 1)),
            Err(refusal) => Err(Some(refusal)),
        };
        same(rt, &lowest_of_two(rt, alloc, row, steps), &want, "of two");
    }
    for row in THREE {
        let [first, second] = row.want;
        let count = usize::from(first.is_some()) + usize::from(second.is_some());
        same(
            rt,
            &lowest_of_three(rt, alloc, &row, steps),
            &Ok((row.want, count)),
            "of three",
        );
    }
}
