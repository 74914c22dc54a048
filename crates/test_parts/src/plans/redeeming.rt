//! Plans: what is taken of each trove, and each refusal at its edge and one beside it.

ghost use Rattle.std.specs.Prelude.{◌≡◌};
ghost use Rattle.liq_order.specs.Listed.{AreDistinct};
ghost use Rattle.liq_redemption.specs.Given.{AreEntireWithin};

use crate::checks::{same, shows};
use crate::plans::pairs::{one, two};
use liq_order::Order;
use liq_redemption::{Cut, RedeemFault, RedeemPlan, plan};
use liq_troves::Troves;
use liq_types::amounts::{LIM, ONE, PRICE_LEAST, PRICE_MOST};
use liq_types::{Market, Refusal, Steps, Wallet};
use std::alloc::Global;
use std::process::Abort;
use std::sync::ledger::Ledger;

// The two troves at the opening price, when redemptions begin, and what is asked.
#[derive(Clone, Copy)]
struct Case {
    price: u64,
    minute: u64,
    base: u64,
    fee_minute: u64,
    total_coll: u64,
    troves: u64,
    lusd: u64,
    amount: u64,
    bound: u64,
}

const CASE: Case = Case {
    price: 1_000_000_000,
    minute: 20_160,
    base: 0,
    fee_minute: 0,
    total_coll: 21_100_000_000,
    troves: 2,
    lusd: 8_000_000_000,
    amount: 5_000_000_000,
    bound: ONE,
};

/// The account, micro-LUSD, gwei, and 1 where the trove is closed.
type Part = [u64; 4];

/// What is taken of one trove or two, and how many they are; what is redeemed and drawn, the fee,
/// and the base rate after it with its minute. Or the refusal, or that there is no memory.
type Answer = Result<([Option<Part>; 2], usize, [u64; 5]), Option<Refusal>>;

fn part_of(cut: &Cut) -> Part {
    [
        u64::from(cut.account),
        cut.lot,
        cut.draw,
        u64::from(cut.full),
    ]
}

fn told(answer: &Result<RedeemPlan, RedeemFault>) -> Answer {
    match answer {
        Ok(plan) => {
            let cuts = plan.cuts.as_slice();
            let both = [cuts.first().map(part_of), cuts.get(1).map(part_of)];
            let rate = plan.rate;
            let sums = [plan.redeemed, plan.drawn, plan.fee, rate.base, rate.minute];
            Ok((both, cuts.len(), sums))
        }
        Err(RedeemFault::No(refusal)) => Err(Some(*refusal)),
        Err(RedeemFault::NoMemory) => Err(None),
    }
}

fn planned<R: Abort>(rt: &R, alloc: Global, troves: &Troves, order: &Order, case: &Case) -> Answer
    requires entire { AreEntireWithin troves.now.sums troves.now.table.rows }
    requires distinct { AreDistinct order.now.entries }
{
    shows(
        rt,
        "a price",
        case.price >= PRICE_LEAST && case.price <= PRICE_MOST,
    );
    shows(
        rt,
        "a rate",
        case.base <= ONE && case.fee_minute <= case.minute,
    );
    shows(rt, "less than all", case.lusd <= 8_440_000_000);
    let m = Market {
        price: case.price,
        minute: case.minute,
        base: case.base,
        fee_minute: case.fee_minute,
        limit: LIM,
        total_coll: case.total_coll,
        total_debt: 8_440_000_000,
        troves: case.troves,
    };
    let wallet = Wallet {
        coll: 0,
        lusd: case.lusd,
    };
    told(&plan(alloc, &m, troves, order, &wallet, case.amount, case.bound))
}

/// What is taken of the first trove where it is closed.
const ALL: Part = [1, 4_020_000_000, 4_020_000_000, 1];

/// Cases, what is taken of one trove or two, what is redeemed and drawn, the fee, and the base rate
/// after it.
const PLANS: [(Case, [Option<Part>; 2], [u64; 4]); 6] = [
    // The first is closed, the second is left with less.
    (
        CASE,
        [Some(ALL), Some([2, 980_000_000, 980_000_000, 0])],
        [
            5_000_000_000,
            5_000_000_000,
            1_506_042_654,
            296_208_530_805_687_203,
        ],
    ),
    // The second would be left with 1,799 LUSD beside its reserve.
    (
        Case {
            amount: 6_241_000_000,
            ..CASE
        },
        [Some(ALL), None],
        [
            4_020_000_000,
            4_020_000_000,
            977_469_668,
            238_151_658_767_772_511,
        ],
    ),
    // It is left with the least debt.
    (
        Case {
            amount: 6_240_000_000,
            ..CASE
        },
        [Some(ALL), Some([2, 2_220_000_000, 2_220_000_000, 0])],
        [
            6_240_000_000,
            6_240_000_000,
            2_337_929_857,
            369_668_246_445_497_630,
        ],
    ),
    // The first has just 100 percent and is passed over, but it is there: the second is closed, and
    // only the first is left.
    (
        Case {
            price: 500_000_000,
            ..CASE
        },
        [Some([2, 4_020_000_000, 8_040_000_000, 1]), None],
        [
            4_020_000_000,
            8_040_000_000,
            1_954_939_336,
            238_151_658_767_772_511,
        ],
    ),
    // At just 110 percent it is visited.
    (
        Case {
            price: 550_000_000,
            amount: 1_100_000_000,
            ..CASE
        },
        [Some([1, 1_100_000_000, 2_000_000_000, 0]), None],
        [
            1_100_000_000,
            2_000_000_000,
            140_331_753,
            65_165_876_777_251_184,
        ],
    ),
    // The least amount, after a minute in which the base rate fell.
    (
        Case {
            amount: 1,
            base: 500_000_000_000_000_000,
            fee_minute: 20_159,
            ..CASE
        },
        [Some([1, 1, 1, 0]), None],
        [1, 1, 0, 499_518_879_476_133_206],
    ),
];

pub fn check_plans<R: Abort, L: Ledger>(rt: &R, alloc: Global, steps: &mut Steps<L>) {
    let Ok((troves, order)) = two(alloc, steps) else {
        shows(rt, "memory", false);
        return;
    };
    for (case, cuts, [redeemed, drawn, fee, base]) in PLANS {
        let [first, second] = cuts;
        let count = usize::from(first.is_some()) + usize::from(second.is_some());
        let sums = [redeemed, drawn, fee, base, case.minute];
        let answer = planned(rt, alloc, &troves, &order, &case);
        same(rt, &answer, &Ok((cuts, count, sums)), "a plan");
    }
}

/// A case, and its refusal where it is refused.
type Row = (Case, Option<Refusal>);

/// These cases are answered so, whatever is planned.
fn check_answers<R: Abort>(rt: &R, alloc: Global, troves: &Troves, order: &Order, rows: &[Row])
    requires entire { AreEntireWithin troves.now.sums troves.now.table.rows }
    requires distinct { AreDistinct order.now.entries }
{
    for (case, want) in rows {
        let refusal = planned(rt, alloc, troves, order, case).err();
        same(rt, &refusal, &want.map(Some), "an answer");
    }
}

pub fn check_refusals<R: Abort, L: Ledger>(rt: &R, alloc: Global, steps: &mut Steps<L>) {
    if let Ok((troves, order)) = two(alloc, steps) {
        check_answers(rt, alloc, &troves, &order, &ASKED);
        check_answers(rt, alloc, &troves, &order, &TAKEN);
    } else {
        shows(rt, "memory", false);
    }
    if let Ok((troves, order)) = one(alloc, steps) {
        check_answers(rt, alloc, &troves, &order, &OF_ONE);
    } else {
        shows(rt, "memory", false);
    }
}

const EARLY: Case = Case {
    minute: 20_159,
    total_coll: 9_283_999_999,
    lusd: 4_999_999_999,
    ..CASE
};

// Before any trove is visited. Each is at its edge, with all that comes later refused too, and one
// beside it.
const ASKED: [Row; 9] = [
    (
        Case {
            amount: 0,
            bound: 0,
            ..EARLY
        },
        Some(Refusal::AmountZero),
    ),
    (
        Case {
            bound: 4_999_999_999_999_999,
            ..EARLY
        },
        Some(Refusal::FeeBound {
            bound: 4_999_999_999_999_999,
            least: 5_000_000_000_000_000,
        }),
    ),
    (
        Case {
            bound: ONE + 1,
            ..EARLY
        },
        Some(Refusal::FeeBound {
            bound: ONE + 1,
            least: 5_000_000_000_000_000,
        }),
    ),
    (
        EARLY,
        Some(Refusal::Bootstrap {
            minute: 20_159,
            limit: 20_160,
        }),
    ),
    (
        Case {
            bound: 5_000_000_000_000_000,
            ..EARLY
        },
        Some(Refusal::Bootstrap {
            minute: 20_159,
            limit: 20_160,
        }),
    ),
    (
        Case {
            minute: 20_160,
            ..EARLY
        },
        Some(Refusal::SystemUnder {
            left: 928_399_999_900_000_000_000,
            right: 928_400_000_000_000_000_000,
        }),
    ),
    (
        Case {
            minute: 20_160,
            total_coll: 9_284_000_000,
            ..EARLY
        },
        Some(Refusal::ShortTokens {
            need: 5_000_000_000,
            have: 4_999_999_999,
        }),
    ),
    (
        Case {
            total_coll: 9_284_000_000,
            lusd: 5_000_000_000,
            ..CASE
        },
        None,
    ),
    (
        Case {
            amount: 1,
            bound: 5_000_000_000_000_000,
            ..CASE
        },
        None,
    ),
];

// One micro-LUSD raises the base rate by 59241706.
const WHOLE: Case = Case {
    amount: 1,
    base: 994_999_999_940_758_294,
    fee_minute: 20_160,
    ..CASE
};

// Of what the cuts come to.
const TAKEN: [Row; 8] = [
    (
        Case {
            amount: 2_220_000_001,
            ..CASE
        },
        Some(Refusal::NothingRedeemed {
            amount: 2_220_000_001,
            net: 4_020_000_000,
        }),
    ),
    (
        Case {
            amount: 2_220_000_000,
            ..CASE
        },
        None,
    ),
    // Both are below 110 percent, as no state has it where the totals are not.
    (
        Case {
            price: 300_000_000,
            total_coll: 100_000_000_000,
            ..CASE
        },
        Some(Refusal::NothingRedeemed {
            amount: 5_000_000_000,
            net: 0,
        }),
    ),
    (
        Case {
            bound: 5_000_000_000_000_000,
            ..WHOLE
        },
        Some(Refusal::FeeEatsAll { fee: 1, drawn: 1 }),
    ),
    (
        Case {
            base: 994_999_999_940_758_293,
            ..WHOLE
        },
        None,
    ),
    (
        Case {
            bound: 301_208_530_799_999_999,
            ..CASE
        },
        Some(Refusal::FeeOver {
            left: 1_506_042_654_000_000_000_000_000_000,
            right: 1_506_042_653_999_999_995_000_000_000,
        }),
    ),
    (
        Case {
            bound: 301_208_530_800_000_000,
            ..CASE
        },
        None,
    ),
    (CASE, None),
];

const LAST: Case = Case {
    troves: 1,
    amount: 4_020_000_000,
    ..CASE
};

// The last trove is never closed: not where all of it would be taken, nor where more is asked.
const OF_ONE: [Row; 4] = [
    (
        LAST,
        Some(Refusal::NothingRedeemed {
            amount: 4_020_000_000,
            net: 4_020_000_000,
        }),
    ),
    (
        Case {
            amount: 5_000_000_000,
            ..LAST
        },
        Some(Refusal::NothingRedeemed {
            amount: 5_000_000_000,
            net: 4_020_000_000,
        }),
    ),
    (
        Case {
            amount: 2_220_000_001,
            ..LAST
        },
        Some(Refusal::NothingRedeemed {
            amount: 2_220_000_001,
            net: 4_020_000_000,
        }),
    ),
    (
        Case {
            amount: 2_220_000_000,
            ..LAST
        },
        None,
    ),
];
