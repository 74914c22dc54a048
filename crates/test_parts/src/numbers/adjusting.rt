//! Changing a trove, and moving a gain into it: plans, and each refusal at its edge and one beside
//! it.

use crate::checks::{same, shows};
use crate::numbers::plan::{Told, told};
use liq_borrow::{Change, plan_adjust, plan_gain};
use liq_types::amounts::{FLOOR_RATE, LIM, ONE};
use liq_types::{Market, Refusal, Wallet};
use std::process::Abort;

/// The collateral of all troves, that of the second of two, what is asked (collateral in and out,
/// LUSD borrowed and repaid, and the bound), and what is planned.
type Row = (u64, u64, [u64; 5], Told);

/// Enough collateral of all troves that nothing is refused for it.
const ALL: u64 = 21_100_000_000;

/// The second trove's, with 300 percent.
const OWN: u64 = 12_660_000_000;

/// One gwei less than 150 percent of all together.
const LOW: u64 = 12_659_999_999;

const ADJUSTED: [Row; 14] = [
    (
        ALL,
        OWN,
        [0, 0, 1_000_000_000, 0, ONE],
        Ok([OWN, 5_270_000_000, 50_000_000, 499_999_999_999_860_089, 720]),
    ),
    (
        ALL,
        OWN,
        [0, 0, 1_000_000_000, 0, FLOOR_RATE - 1],
        Err(Refusal::FeeBound {
            bound: FLOOR_RATE - 1,
            least: FLOOR_RATE,
        }),
    ),
    (
        ALL,
        OWN,
        [0, 0, 1_000_000_000, 0, FLOOR_RATE],
        Err(Refusal::FeeOver {
            left: 50_000_000_000_000_000_000_000_000,
            right: 5_000_000_000_000_000_000_000_000,
        }),
    ),
    (
        ALL,
        OWN,
        [3, 0, 0, 0, 0],
        Ok([12_660_000_003, 4_220_000_000, 0, ONE, 0]),
    ),
    (
        ALL,
        OWN,
        [4, 0, 0, 0, 0],
        Err(Refusal::ShortCollateral { need: 4, have: 3 }),
    ),
    (
        ALL,
        OWN,
        [1, 1, 0, 0, 0],
        Err(Refusal::BothWays {
            first: 1,
            second: 1,
        }),
    ),
    (
        ALL,
        OWN,
        [0, 0, 1, 2, ONE],
        Err(Refusal::BothWays {
            first: 1,
            second: 2,
        }),
    ),
    (ALL, OWN, [0, 0, 0, 0, 0], Err(Refusal::NoChange)),
    (
        ALL,
        OWN,
        [0, 8_018_000_000, 0, 0, 0],
        Ok([4_642_000_000, 4_220_000_000, 0, ONE, 0]),
    ),
    (
        ALL,
        OWN,
        [0, 8_018_000_001, 0, 0, 0],
        Err(Refusal::RatioLow {
            left: 464_199_999_900_000_000_000,
            right: 464_200_000_000_000_000_000,
        }),
    ),
    (
        ALL,
        OWN,
        [0, 12_660_000_001, 0, 0, 0],
        Err(Refusal::ShortCollateral {
            need: 12_660_000_001,
            have: OWN,
        }),
    ),
    (
        ALL,
        OWN,
        [0, 0, 0, 2_220_000_000, 0],
        Ok([OWN, 2_000_000_000, 0, ONE, 0]),
    ),
    (
        ALL,
        OWN,
        [0, 0, 0, 2_220_000_001, 0],
        Err(Refusal::NetDebtLow {
            net: 1_799_999_999,
            least: 1_800_000_000,
        }),
    ),
    (
        ALL,
        OWN,
        [0, 0, 0, 4_000_000_001, 0],
        Err(Refusal::ShortTokens {
            need: 4_000_000_001,
            have: 4_000_000_000,
        }),
    ),
];

const LIMITED: [Row; 8] = [
    // Limits of all troves together.
    (
        13_000_000_000,
        OWN,
        [0, 340_000_000, 0, 0, 0],
        Ok([12_320_000_000, 4_220_000_000, 0, ONE, 0]),
    ),
    (
        13_000_000_000,
        OWN,
        [0, 340_000_001, 0, 0, 0],
        Err(Refusal::SystemRatioLow {
            left: 1_265_999_999_900_000_000_000,
            right: 1_266_000_000_000_000_000_000,
        }),
    ),
    // The ratio would be too low as well.
    (
        ALL,
        OWN,
        [0, 0, LIM, 0, ONE],
        Err(Refusal::AmountLimit {
            sum: 10_500_000_008_440_000_000,
            limit: LIM,
        }),
    ),
    // In Recovery Mode.
    (
        LOW,
        OWN,
        [0, 1, 0, 0, 0],
        Err(Refusal::RecoveryForbids {
            left: 1_265_999_999_900_000_000_000,
            right: 1_266_000_000_000_000_000_000,
        }),
    ),
    (
        LOW,
        OWN,
        [3, 0, 1, 0, 0],
        Ok([12_660_000_003, 4_220_000_001, 0, ONE, 0]),
    ),
    (
        LOW,
        OWN,
        [2, 0, 1, 0, 0],
        Err(Refusal::RatioFalls {
            left: 53_425_200_008_440_000_000,
            right: 53_425_200_012_660_000_000,
        }),
    ),
    (
        LOW,
        OWN,
        [0, 0, 0, 1, 0],
        Ok([OWN, 4_219_999_999, 0, ONE, 0]),
    ),
    (
        LOW,
        6_330_000_000,
        [0, 0, 1, 0, 0],
        Err(Refusal::RatioLow {
            left: 633_000_000_000_000_000_000,
            right: 633_000_000_150_000_000_000,
        }),
    ),
];

/// The collateral of all troves, that and the debt of the second, a gain, and what is planned.
type Gained = (u64, [u64; 3], Told);

const GAINED: [Gained; 5] = [
    (
        ALL,
        [100_518_720_380, 4_440_000_000, 9_431_279_620],
        Ok([109_950_000_000, 4_440_000_000, 0, ONE, 0]),
    ),
    (
        ALL,
        [2_430_999_998, 2_210_000_000, 2],
        Ok([2_431_000_000, 2_210_000_000, 0, ONE, 0]),
    ),
    (
        ALL,
        [2_430_999_998, 2_210_000_000, 1],
        Err(Refusal::RatioLow {
            left: 243_099_999_900_000_000_000,
            right: 243_100_000_000_000_000_000,
        }),
    ),
    (
        LOW,
        [2_430_999_998, 2_210_000_000, 1],
        Ok([2_430_999_999, 2_210_000_000, 0, ONE, 0]),
    ),
    (
        ALL,
        [2_430_999_998, 2_210_000_000, 0],
        Err(Refusal::NoGain { account: 2 }),
    ),
];

const WALLET: Wallet = Wallet {
    coll: 3,
    lusd: 4_000_000_000,
};

/// Half a day after a fee that left the base rate at one.
const MARKET: Market = Market {
    price: 1_000_000_000,
    minute: 720,
    base: ONE,
    fee_minute: 0,
    limit: LIM,
    total_coll: ALL,
    total_debt: 8_440_000_000,
    troves: 2,
};

fn check<R: Abort>(rt: &R, rows: &[Row]) {
    for row in rows {
        same(rt, &adjusted(rt, row), &row.3, "a plan");
    }
}

fn adjusted<R: Abort>(rt: &R, row: &Row) -> Told {
    let (total_coll, own, [coll_in, coll_out, borrow, repay, bound], _) = *row;
    let m = Market {
        total_coll,
        ..MARKET
    };
    let change = Change {
        coll_in,
        coll_out,
        borrow,
        repay,
    };
    shows(rt, "within the limit", own <= OWN);
    told(plan_adjust(&m, &WALLET, Some((own, 4_220_000_000)), 2, &change, bound))
}

#[test]
fn adjusts(rt: HostRuntime) {
    check(&rt, &ADJUSTED);
    check(&rt, &LIMITED);
    let change = Change {
        coll_in: 0,
        coll_out: 0,
        borrow: 0,
        repay: 0,
    };
    let plan = plan_adjust(&MARKET, &WALLET, None, 2, &change, 0);
    same(
        &rt,
        &told(plan),
        &Err(Refusal::NoTrove { account: 2 }),
        "no trove",
    );
}

#[test]
fn gains(rt: HostRuntime) {
    for (total_coll, [coll, debt, gain], want) in &GAINED {
        let m = Market {
            total_coll: *total_coll,
            ..MARKET
        };
        shows(
            &rt,
            "within the limit",
            *coll <= LIM && *gain <= LIM - *coll,
        );
        let plan = plan_gain(&m, Some((*coll, *debt)), 2, *gain);
        same(&rt, &told(plan), want, "a plan");
    }
    let plan = plan_gain(&MARKET, None, 2, 0);
    same(
        &rt,
        &told(plan),
        &Err(Refusal::NoTrove { account: 2 }),
        "no trove",
    );
}
