//! One trove: each line of the table of treatments, at its edges and one beside.

use crate::checks::{same, shows};
use crate::plans::read::parts;
use crate::plans::world::market;
use liq_liquidation::plan_one;
use liq_troves::{Sums, Trove};
use liq_types::Refusal;
use liq_types::amounts::SUM_MOST;
use std::process::Abort;

/// Price, collateral and debt of all troves, how many they are, collateral and debt of one with
/// nothing pending, and the LUSD of the Stability Pool; and what becomes of the one.
type Row = ([u64; 7], Result<[u64; 6], Refusal>);

const ROWS: [Row; 17] = [
    // In Normal Mode the pool takes over what it can.
    (
        [
            460_000_000,
            110_000_000_000,
            8_440_000_000,
            2,
            10_000_000_000,
            4_220_000_000,
            4_000_000_000,
        ],
        Ok([
            50_000_000,
            4_000_000_000,
            9_431_279_620,
            220_000_000,
            518_720_380,
            0,
        ]),
    ),
    // An empty pool takes over nothing.
    (
        [
            460_000_000,
            110_000_000_000,
            8_440_000_000,
            2,
            10_000_000_000,
            4_220_000_000,
            0,
        ],
        Ok([50_000_000, 0, 0, 4_220_000_000, 9_950_000_000, 0]),
    ),
    // In Recovery Mode, exactly 100 percent.
    (
        [
            500_000_000,
            21_100_000_000,
            8_440_000_000,
            2,
            8_440_000_000,
            4_220_000_000,
            4_000_000_000,
        ],
        Ok([42_200_000, 0, 0, 4_220_000_000, 8_397_800_000, 0]),
    ),
    // One gwei above it.
    (
        [
            500_000_000,
            21_100_000_001,
            8_440_000_000,
            2,
            8_440_000_001,
            4_220_000_000,
            4_000_000_000,
        ],
        Ok([
            42_200_000,
            4_000_000_000,
            7_960_000_000,
            220_000_000,
            437_800_001,
            0,
        ]),
    ),
    // Exactly 110 percent: the pool has one micro-LUSD too little.
    (
        [
            550_000_000,
            21_100_000_000,
            8_440_000_000,
            2,
            8_440_000_000,
            4_220_000_000,
            4_219_999_999,
        ],
        Err(Refusal::PoolTooSmall {
            total: 4_219_999_999,
            debt: 4_220_000_000,
        }),
    ),
    // It has just the debt.
    (
        [
            550_000_000,
            21_100_000_000,
            8_440_000_000,
            2,
            8_440_000_000,
            4_220_000_000,
            4_220_000_000,
        ],
        Ok([42_200_000, 4_220_000_000, 8_397_800_000, 0, 0, 0]),
    ),
    // It has one more.
    (
        [
            550_000_000,
            21_100_000_000,
            8_440_000_000,
            2,
            8_440_000_000,
            4_220_000_000,
            4_220_000_001,
        ],
        Ok([42_200_000, 4_220_000_000, 8_397_800_000, 0, 0, 0]),
    ),
    // One gwei below 110 percent a pool that is too small takes over a part.
    (
        [
            550_000_000,
            21_099_999_999,
            8_440_000_000,
            2,
            8_439_999_999,
            4_220_000_000,
            2_110_000_000,
        ],
        Ok([
            42_199_999,
            2_110_000_000,
            4_198_900_000,
            2_110_000_000,
            4_198_900_000,
            0,
        ]),
    ),
    // Above 110 percent the owner keeps the rest.
    (
        [
            560_000_000,
            21_100_000_000,
            8_440_000_000,
            2,
            8_440_000_000,
            4_220_000_000,
            4_220_000_000,
        ],
        Ok([41_446_428, 4_220_000_000, 8_247_839_286, 0, 0, 150_714_286]),
    ),
    // Its own ratio is that of the totals.
    (
        [
            560_000_000,
            16_880_000_000,
            8_440_000_000,
            2,
            8_440_000_000,
            4_220_000_000,
            4_220_000_000,
        ],
        Err(Refusal::NotLiquidatable {
            coll: 8_440_000_000,
            debt: 4_220_000_000,
            price: 560_000_000,
            total_coll: 16_880_000_000,
            total_debt: 8_440_000_000,
        }),
    ),
    // The totals have one gwei more.
    (
        [
            560_000_000,
            16_880_000_001,
            8_440_000_000,
            2,
            8_440_000_000,
            4_220_000_000,
            4_220_000_000,
        ],
        Ok([41_446_428, 4_220_000_000, 8_247_839_286, 0, 0, 150_714_286]),
    ),
    // The totals have exactly 150 percent, so it is Normal Mode, and the trove exactly 110.
    (
        [
            1_000_000_000,
            6_630_000_000,
            4_420_000_000,
            2,
            2_431_000_000,
            2_210_000_000,
            4_420_000_000,
        ],
        Err(Refusal::NotLiquidatable {
            coll: 2_431_000_000,
            debt: 2_210_000_000,
            price: 1_000_000_000,
            total_coll: 6_630_000_000,
            total_debt: 4_420_000_000,
        }),
    ),
    // The trove has one gwei less.
    (
        [
            1_000_000_000,
            6_630_000_000,
            4_420_000_000,
            2,
            2_430_999_999,
            2_210_000_000,
            4_420_000_000,
        ],
        Ok([12_154_999, 2_210_000_000, 2_418_845_000, 0, 0, 0]),
    ),
    // The totals have one gwei less, so it is Recovery Mode.
    (
        [
            1_000_000_000,
            6_629_999_999,
            4_420_000_000,
            2,
            2_431_000_000,
            2_210_000_000,
            4_420_000_000,
        ],
        Ok([12_155_000, 2_210_000_000, 2_418_845_000, 0, 0, 0]),
    ),
    // Above the totals, in Recovery Mode.
    (
        [
            1_000_000_000,
            6_629_999_999,
            4_420_000_000,
            2,
            4_198_999_999,
            2_210_000_000,
            4_420_000_000,
        ],
        Err(Refusal::NotLiquidatable {
            coll: 4_198_999_999,
            debt: 2_210_000_000,
            price: 1_000_000_000,
            total_coll: 6_629_999_999,
            total_debt: 4_420_000_000,
        }),
    ),
    // The last trove stays, whatever its ratio.
    (
        [
            500_000_000,
            8_440_000_000,
            4_220_000_000,
            1,
            8_440_000_000,
            4_220_000_000,
            0,
        ],
        Err(Refusal::LastTrove { troves: 1 }),
    ),
    (
        [500_000_000, 0, 0, 0, 8_440_000_000, 4_220_000_000, 0],
        Err(Refusal::LastTrove { troves: 0 }),
    ),
];

/// What becomes of a trove whose marks are the sums, where the other troves have one unit of stake
/// and these sums.
fn treated<R: Abort>(
    rt: &R,
    row: [u64; 7],
    sum_coll: u128,
    sum_debt: u128,
) -> Result<[u64; 6], Refusal> {
    let [price, total_coll, total_debt, troves, coll, debt, pool] = row;
    shows(rt, "a price", price >= 1 && price <= 1_000_000_000_000);
    shows(rt, "sums", sum_coll <= SUM_MOST && sum_debt <= SUM_MOST);
    shows(rt, "an amount", coll < u64::MAX);
    let m = market(price, total_coll, total_debt, troves);
    let sums = Sums {
        coll: sum_coll,
        debt: sum_debt,
        stakes: coll + 1,
        snap_stakes: 0,
        snap_coll: 0,
    };
    let trove = Trove {
        coll,
        debt,
        stake: coll,
        mark_coll: sum_coll,
        mark_debt: sum_debt,
    };
    match plan_one(&m, &sums, &trove, pool) {
        Ok(one) => Ok(parts(&one)),
        Err(refusal) => Err(refusal),
    }
}

#[test]
fn treatments(rt: HostRuntime) {
    for (row, want) in ROWS {
        same(&rt, &treated(&rt, row, 0, 0), &want, "a treatment");
    }
}

/// In Recovery Mode and below 100 percent, so the other troves take over 10^18 gwei and next to no
/// debt.
const GREAT: [u64; 7] = [
    100_000_000,
    1_005_025_125_628_140_704,
    4_000_000_000_000_000_000,
    2,
    1_005_025_125_628_140_703,
    200_000_000_000_000_000,
    0,
];

/// What the collateral adds to its sum.
const STEP: u128 = 1_000_000_000_000_000_000_000_000_000_000_000_000;

/// The two sums, and what becomes of the trove. Where both would pass their limit, the collateral's
/// is told.
const LIMITS: [(u128, u128, Result<[u64; 6], Refusal>); 4] = [
    (
        SUM_MOST - STEP,
        0,
        Ok([
            5_025_125_628_140_703,
            0,
            0,
            200_000_000_000_000_000,
            1_000_000_000_000_000_000,
            0,
        ]),
    ),
    (
        SUM_MOST,
        0,
        Err(Refusal::SumLimit {
            sum: SUM_MOST + STEP,
        }),
    ),
    (
        SUM_MOST,
        SUM_MOST,
        Err(Refusal::SumLimit {
            sum: SUM_MOST + STEP,
        }),
    ),
    (
        0,
        SUM_MOST,
        Err(Refusal::SumLimit {
            sum: SUM_MOST + STEP / 5,
        }),
    ),
];

#[test]
fn sum_limits(rt: HostRuntime) {
    for (coll, debt, want) in LIMITS {
        same(&rt, &treated(&rt, GREAT, coll, debt), &want, "at the limit");
    }
}
