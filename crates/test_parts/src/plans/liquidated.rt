//! A liquidation made on real objects, and what is then read of each.

ghost use Rattle.std.specs.Prelude.{◌≡◌, ◌≤◌, [], ◌∷◌, IfOk};
ghost use Rattle.test_parts.specs.World.{AreFresh, AreOpened, fresh};

use crate::checks::{same, shows};
use crate::plans::read;
use crate::plans::world::{BEFORE, FIRST, SECOND, World, market, two};
use liq_ledger::{Pools, Surplus, Wallets};
use liq_liquidation::{Victim, apply_one, plan_one};
use liq_stability::Stability;
use liq_troves::Trove;
use liq_types::amounts::LIM;
use liq_types::{NoMemory, Steps};
use std::alloc::Global;
use std::process::Abort;
use std::sync::ledger::Ledger;

const OWNER: u32 = 1;

const DEPOSITOR: u32 = 2;

const LIQUIDATOR: u32 = 3;

/// A price, and what is left by the liquidation of the first trove at it.
#[derive(Clone, Copy)]
struct Case {
    price: u64,
    deposit: u64,
    /// Collateral and LUSD.
    liquidator: [u64; 2],
    /// Active collateral and debt, default collateral and debt, reserve, surplus, and the fees'
    /// collateral and LUSD.
    pools: [u64; 8],
    /// Gwei and micro-LUSD that each unit of stake of the second trove got, over 10^18.
    sums: [u128; 2],
    /// LUSD and collateral of the Stability Pool.
    pool: [u64; 2],
}

/// What the call writes, beside the troves and their list.
#[derive(Drop)]
struct Homes {
    wallets: Wallets,
    pools: Pools,
    surplus: Surplus,
    stability: Stability,
}

fn opened<R: Abort>(rt: &R, alloc: Global, deposit: u64) -> Result<Homes, NoMemory>
    ensures { IfOk result (λ h. AreOpened h.wallets h.pools h.surplus h.stability) }
{
    let mut wallets = Wallets::new(alloc);
    let mut surplus = Surplus::new(alloc);
    let mut stability = Stability::new(alloc);
    wallets.reserve(LIQUIDATOR)?;
    surplus.reserve(&[OWNER])?;
    stability.reserve(Some(DEPOSITOR), 1)?;
    shows(rt, "a deposit", deposit >= 1 && deposit <= LIM);
    let gain = stability.provide(DEPOSITOR, deposit);
    shows(rt, "no gain", gain == 0);
    Ok(Homes {
        wallets,
        pools: BEFORE,
        surplus,
        stability,
    })
}

// Plans the liquidation of the first trove and makes it.
fn liquidate<R: Abort>(rt: &R, world: &mut World, homes: &mut Homes, price: u64)
    requires fresh { AreFresh world.old.troves world.old.order ((1, fresh FIRST) ∷ (2, fresh SECOND)
        ∷ []) 21100000000 }
    requires opened { AreOpened homes.old.wallets homes.old.pools homes.old.surplus
        homes.old.stability }
    requires price_least { 100000000 ≤ price }
    requires price_most { price ≤ 1000000000000 }
{
    let m = market(price, 21_100_000_000, 8_440_000_000, 2);
    let total = homes.stability.words().total;
    let trove = Trove {
        coll: FIRST.0,
        debt: FIRST.1,
        stake: FIRST.0,
        mark_coll: 0,
        mark_debt: 0,
    };
    let Ok(one) = plan_one(&m, world.troves.sums(), &trove, total) else {
        shows(rt, "it may be liquidated", false);
        return;
    };
    let victim = Victim {
        account: OWNER,
        one,
    };
    let within = one.gas <= LIM && one.surplus <= LIM && one.offset_coll <= LIM;
    shows(rt, "within the limit", within);
    apply_one(
        &victim,
        LIQUIDATOR,
        &mut homes.wallets,
        &mut homes.pools,
        &mut homes.surplus,
        &mut world.troves,
        &mut world.order,
        &mut homes.stability,
    );
}

const CASES: [Case; 3] = [
    // The pool takes over all for a part of the collateral.
    Case {
        price: 560_000_000,
        deposit: 4_220_000_000,
        liquidator: [41_446_428, 200_000_000],
        pools: [
            12_660_000_000,
            4_220_000_000,
            0,
            0,
            200_000_000,
            150_714_286,
            0,
            40_000_000,
        ],
        sums: [0, 0],
        pool: [0, 8_247_839_286],
    },
    // The second trove takes over all.
    Case {
        price: 500_000_000,
        deposit: 4_000_000_000,
        liquidator: [42_200_000, 200_000_000],
        pools: [
            12_660_000_000,
            4_220_000_000,
            8_397_800_000,
            4_220_000_000,
            200_000_000,
            0,
            0,
            40_000_000,
        ],
        sums: [663_333_333_333_333_333, 333_333_333_333_333_333],
        pool: [4_000_000_000, 0],
    },
    // The pool takes over what it can.
    Case {
        price: 500_000_001,
        deposit: 4_000_000_000,
        liquidator: [42_200_000, 200_000_000],
        pools: [
            12_660_000_000,
            4_220_000_000,
            437_800_000,
            220_000_000,
            200_000_000,
            0,
            0,
            40_000_000,
        ],
        sums: [34_581_358_609_794_628, 17_377_567_140_600_315],
        pool: [0, 7_960_000_000],
    },
];

fn check_case<R: Abort, L: Ledger>(rt: &R, alloc: Global, case: &Case, steps: &mut Steps<L>) {
    let Ok(mut world) = two(alloc, FIRST, SECOND, steps) else {
        shows(rt, "memory", false);
        return;
    };
    let Ok(mut homes) = opened(rt, alloc, case.deposit) else {
        shows(rt, "memory", false);
        return;
    };
    let price = case.price;
    shows(
        rt,
        "a price",
        price >= 100_000_000 && price <= 1_000_000_000_000,
    );
    liquidate(rt, &mut world, &mut homes, price);
    check_homes(rt, &homes, case);
    check_world(rt, &world, case);
}

fn check_homes<R: Abort>(rt: &R, homes: &Homes, case: &Case) {
    same(
        rt,
        &read::wallet(&homes.wallets, LIQUIDATOR),
        &case.liquidator,
        "the liquidator",
    );
    same(
        rt,
        &read::wallet(&homes.wallets, OWNER),
        &[0, 0],
        "the owner",
    );
    same(rt, &read::pools(&homes.pools), &case.pools, "the pools");
    let [.., surplus, _, _] = case.pools;
    same(rt, &homes.surplus.read(OWNER), &surplus, "the surplus");
    let words = homes.stability.words();
    same(
        rt,
        &[words.total, words.coll],
        &case.pool,
        "the Stability Pool",
    );
    let deposit = homes
        .stability
        .deposit(DEPOSITOR)
        .map(|deposit| deposit.amount);
    same(rt, &deposit, &Some(case.deposit), "the deposit stays");
}

fn check_world<R: Abort>(rt: &R, world: &World, case: &Case) {
    same(rt, &world.troves.count(), &1, "troves");
    shows(rt, "no trove", world.troves.get(OWNER).is_none());
    same(rt, &world.order.last(), &Some(DEPOSITOR), "the list's end");
    same(rt, &world.order.find(OWNER), &None, "not in the list");
    let sums = world.troves.sums();
    same(rt, &[sums.coll, sums.debt], &case.sums, "the sums");
    let [active_coll, _, default_coll, ..] = case.pools;
    let coll = active_coll.wrapping_add(default_coll);
    same(
        rt,
        &[sums.stakes, sums.snap_stakes, sums.snap_coll],
        &[SECOND.0, SECOND.0, coll],
        "the stakes",
    );
}

pub fn check<R: Abort, L: Ledger>(rt: &R, alloc: Global, steps: &mut Steps<L>) {
    for case in CASES {
        check_case(rt, alloc, &case, steps);
    }
}
