//! Closing a trove: plans, and each refusal at its edge and one beside it.

use crate::checks::same;
use liq_borrow::plan_close;
use liq_types::amounts::LIM;
use liq_types::{Market, Refusal, Wallet};

/// The second of two troves, with 300 percent.
const HAD: (u64, u64) = (12_660_000_000, 4_220_000_000);

/// The collateral of all troves, how many they are, the LUSD that the owner has, and what is repaid
/// and got.
type Row = (u64, u64, u64, Result<(u64, u64), Refusal>);

const CLOSED: [Row; 6] = [
    (
        21_100_000_000,
        2,
        4_020_000_000,
        Ok((4_020_000_000, 12_660_000_000)),
    ),
    (
        21_100_000_000,
        1,
        4_020_000_000,
        Err(Refusal::LastTrove { troves: 1 }),
    ),
    (
        21_100_000_000,
        2,
        4_019_999_999,
        Err(Refusal::ShortTokens {
            need: 4_020_000_000,
            have: 4_019_999_999,
        }),
    ),
    (
        18_990_000_000,
        2,
        4_020_000_000,
        Ok((4_020_000_000, 12_660_000_000)),
    ),
    (
        18_989_999_999,
        2,
        4_020_000_000,
        Err(Refusal::SystemRatioLow {
            left: 632_999_999_900_000_000_000,
            right: 633_000_000_000_000_000_000,
        }),
    ),
    (
        12_659_999_999,
        2,
        0,
        Err(Refusal::RecoveryForbids {
            left: 1_265_999_999_900_000_000_000,
            right: 1_266_000_000_000_000_000_000,
        }),
    ),
];

#[test]
fn closes(rt: HostRuntime) {
    for (total_coll, troves, lusd, want) in &CLOSED {
        let m = Market {
            price: 1_000_000_000,
            minute: 0,
            base: 0,
            fee_minute: 0,
            limit: LIM,
            total_coll: *total_coll,
            total_debt: 8_440_000_000,
            troves: *troves,
        };
        let wallet = Wallet {
            coll: 0,
            lusd: *lusd,
        };
        let plans = [
            plan_close(&m, &wallet, Some(HAD), 2),
            plan_close(&m, &wallet, None, 2),
        ];
        let none = Err(Refusal::NoTrove { account: 2 });
        same(&rt, &plans, &[*want, none], "a trove, and none");
    }
}
