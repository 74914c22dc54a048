//! Opening a trove: plans, and each refusal at its edge and one beside it.

use crate::checks::{same, shows};
use crate::numbers::plan::{Told, told};
use liq_borrow::plan_open;
use liq_types::amounts::{FLOOR_RATE, LIM, ONE, PRICE_MOST};
use liq_types::{Market, Refusal, Wallet};
use std::process::Abort;

/// The market as the protocol opens.
const EMPTY: Market = Market {
    price: 1_000_000_000,
    minute: 0,
    base: 0,
    fee_minute: 0,
    limit: LIM,
    total_coll: 0,
    total_debt: 0,
    troves: 0,
};

/// One trove, beside which a second of 2,210,000,000 leaves all together at 150 percent.
const TIED: Market = Market {
    total_coll: 4_199_000_000,
    total_debt: 2_210_000_000,
    troves: 1,
    ..EMPTY
};

/// One gwei less of it.
const BELOW: Market = Market {
    total_coll: 4_198_999_999,
    ..TIED
};

/// After a redemption that left a high base rate, so that the fee is five percent, which the bound
/// may forbid.
const REDEEMED: Market = Market {
    price: 1_000_000_000,
    minute: 20_160,
    base: 296_208_530_805_687_203,
    fee_minute: 20_160,
    limit: LIM,
    total_coll: 11_680_000_000,
    total_debt: 3_240_000_000,
    troves: 1,
};

/// Recovery Mode, at 140 percent, half a day after a fee that left the base rate at one: a trove
/// needs 150 percent, costs no fee and leaves the base rate.
const RECOVERY: Market = Market {
    price: 1_000_000_000,
    minute: 720,
    base: ONE,
    fee_minute: 0,
    limit: LIM,
    total_coll: 14_000_000_000,
    total_debt: 10_000_000_000,
    troves: 2,
};

/// So much debt that one more trove of 4,220,000,000 reaches the limit.
const FULL: Market = Market {
    price: 2_000_000_000,
    total_coll: LIM,
    total_debt: LIM - 4_220_000_000,
    troves: 2,
    ..EMPTY
};

/// One micro-LUSD more.
const FULLER: Market = Market {
    total_debt: LIM - 4_219_999_999,
    ..FULL
};

const WALLET: Wallet = Wallet {
    coll: 10_000_000_000,
    lusd: 0,
};

/// What is asked (collateral, LUSD borrowed and bound), and what is planned.
type Row = ([u64; 3], Told);

const PLANNED: Told = Ok([10_000_000_000, 4_220_000_000, 20_000_000, 0, 0]);

const FIRST: [Row; 11] = [
    ([10_000_000_000, 4_000_000_000, ONE], PLANNED),
    ([10_000_000_000, 4_000_000_000, FLOOR_RATE], PLANNED),
    (
        [10_000_000_000, 4_000_000_000, FLOOR_RATE - 1],
        Err(Refusal::FeeBound {
            bound: FLOOR_RATE - 1,
            least: FLOOR_RATE,
        }),
    ),
    (
        [10_000_000_000, 4_000_000_000, ONE + 1],
        Err(Refusal::FeeBound {
            bound: ONE + 1,
            least: FLOOR_RATE,
        }),
    ),
    (
        [10_000_000_000, 1_791_040_000, ONE],
        Err(Refusal::NetDebtLow {
            net: 1_799_995_200,
            least: 1_800_000_000,
        }),
    ),
    (
        [10_000_000_000, 1_791_044_776, ONE],
        Err(Refusal::NetDebtLow {
            net: 1_799_999_999,
            least: 1_800_000_000,
        }),
    ),
    (
        [10_000_000_000, 1_791_044_777, ONE],
        Ok([10_000_000_000, 2_000_000_000, 8_955_223, 0, 0]),
    ),
    (
        [10_000_000_001, 4_000_000_000, ONE],
        Err(Refusal::ShortCollateral {
            need: 10_000_000_001,
            have: 10_000_000_000,
        }),
    ),
    (
        [6_330_000_000, 4_000_000_000, ONE],
        Ok([6_330_000_000, 4_220_000_000, 20_000_000, 0, 0]),
    ),
    (
        [6_329_999_999, 4_000_000_000, ONE],
        Err(Refusal::SystemRatioLow {
            left: 632_999_999_900_000_000_000,
            right: 633_000_000_000_000_000_000,
        }),
    ),
    (
        [0, u64::MAX, ONE],
        Err(Refusal::AmountLimit {
            sum: 18_538_977_794_278_099_373,
            limit: LIM,
        }),
    ),
];

/// The second trove is exactly at 110 percent and all together exactly at 150.
const AT_A_TIE: [Row; 2] = [
    (
        [2_431_000_000, 2_000_000_000, ONE],
        Ok([2_431_000_000, 2_210_000_000, 10_000_000, 0, 0]),
    ),
    (
        [2_430_999_999, 2_000_000_000, ONE],
        Err(Refusal::RatioLow {
            left: 243_099_999_900_000_000_000,
            right: 243_100_000_000_000_000_000,
        }),
    ),
];

const BELOW_THE_TIE: [Row; 1] = [(
    [2_431_000_000, 2_000_000_000, ONE],
    Err(Refusal::SystemRatioLow {
        left: 662_999_999_900_000_000_000,
        right: 663_000_000_000_000_000_000,
    }),
)];

const WITH_FEE: Told = Ok([
    10_000_000_000,
    2_300_000_000,
    100_000_000,
    296_208_530_805_687_203,
    20_160,
]);

const AT_A_FEE: [Row; 4] = [
    (
        [10_000_000_000, 2_000_000_000, FLOOR_RATE],
        Err(Refusal::FeeOver {
            left: 100_000_000_000_000_000_000_000_000,
            right: 10_000_000_000_000_000_000_000_000,
        }),
    ),
    (
        [10_000_000_000, 2_000_000_000, 49_999_999_999_999_999],
        Err(Refusal::FeeOver {
            left: 100_000_000_000_000_000_000_000_000,
            right: 99_999_999_999_999_998_000_000_000,
        }),
    ),
    (
        [10_000_000_000, 2_000_000_000, 50_000_000_000_000_000],
        WITH_FEE,
    ),
    ([10_000_000_000, 2_000_000_000, ONE], WITH_FEE),
];

const IN_RECOVERY: [Row; 3] = [
    (
        [6_300_000_000, 4_000_000_000, 0],
        Ok([6_300_000_000, 4_200_000_000, 0, ONE, 0]),
    ),
    (
        [6_299_999_999, 4_000_000_000, 0],
        Err(Refusal::RatioLow {
            left: 629_999_999_900_000_000_000,
            right: 630_000_000_000_000_000_000,
        }),
    ),
    (
        [6_300_000_000, 4_000_000_000, ONE + 1],
        Err(Refusal::FeeBound {
            bound: ONE + 1,
            least: 0,
        }),
    ),
];

const AT_THE_LIMIT: [Row; 1] = [([10_000_000_000, 4_000_000_000, ONE], PLANNED)];

/// The ratio would be too low as well.
const PAST_THE_LIMIT: [Row; 1] = [(
    [1, 4_000_000_000, ONE],
    Err(Refusal::AmountLimit {
        sum: 10_000_000_000_000_000_001,
        limit: LIM,
    }),
)];

fn check<R: Abort>(rt: &R, m: &Market, account: u32, rows: &[Row]) {
    shows(
        rt,
        "a market",
        m.price <= PRICE_MOST && m.base <= ONE && m.fee_minute <= m.minute,
    );
    for ([coll, borrow, bound], want) in rows {
        let plan = plan_open(m, &WALLET, false, account, *coll, *borrow, *bound);
        same(rt, &told(plan), want, "a plan");
    }
}

#[test]
fn opens(rt: HostRuntime) {
    check(&rt, &EMPTY, 1, &FIRST);
    check(&rt, &TIED, 2, &AT_A_TIE);
    check(&rt, &BELOW, 2, &BELOW_THE_TIE);
    check(&rt, &REDEEMED, 3, &AT_A_FEE);
    check(&rt, &RECOVERY, 3, &IN_RECOVERY);
    check(&rt, &FULL, 3, &AT_THE_LIMIT);
    check(&rt, &FULLER, 3, &PAST_THE_LIMIT);
    let plan = plan_open(&EMPTY, &WALLET, true, 1, 0, 0, 0);
    let exists = Err(Refusal::TroveExists { account: 1 });
    same(&rt, &told(plan), &exists, "of an owner");
}
