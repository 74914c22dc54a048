//! A planned redemption is carried out, and what it made is read back.

ghost use Rattle.std.specs.Prelude.{◌≡◌, IfOk};
ghost use Rattle.liq_types.specs.WellFormed.{Ascends};
ghost use Rattle.liq_types.specs.State.{wallet_in};

use crate::checks::{same, shows};
use crate::plans::pairs::two;
use crate::plans::read;
use crate::plans::world::BEFORE;
use liq_ledger::{Pools, Surplus, Wallets};
use liq_order::Order;
use liq_redemption::{apply, plan, reserve};
use liq_troves::{Trove, Troves};
use liq_types::amounts::{LIM, ONE};
use liq_types::{Hint, Market, NoMemory, Steps};
use std::alloc::Global;
use std::process::Abort;
use std::sync::ledger::Ledger;

const MARKET: Market = Market {
    price: 1_000_000_000,
    minute: 20_160,
    base: 0,
    fee_minute: 0,
    limit: LIM,
    total_coll: 21_100_000_000,
    total_debt: 8_440_000_000,
    troves: 2,
};

const AFTER: Pools = Pools {
    active_coll: 11_680_000_000,
    active_debt: 3_240_000_000,
    default_coll: 0,
    default_debt: 0,
    reserve: 200_000_000,
    surplus: 4_420_000_000,
    fee_coll: 1_506_042_654,
    fee_lusd: 40_000_000,
};

const SECOND: Trove = Trove {
    coll: 11_680_000_000,
    debt: 3_240_000_000,
    stake: 11_680_000_000,
    mark_coll: 0,
    mark_debt: 0,
};

// The account has 8,000 LUSD.
fn funded(alloc: Global, account: u32) -> Result<Wallets, NoMemory>
    ensures had { IfOk result (λ w. wallet_in w.rows account ≡ record {
      coll = 0;
      lusd = 8000000000;
    }) }
    ensures ascend { IfOk result (λ w. Ascends w.rows) }
{
    let mut wallets = Wallets::new(alloc);
    wallets.reserve(account)?;
    wallets.pay(account, 0, 8_000_000_000);
    Ok(wallets)
}

// 5,000 LUSD of the account: the first trove is closed, the second is left with less.
fn check_redeemed<R: Abort, L: Ledger>(rt: &R, alloc: Global, account: u32, steps: &mut Steps<L>) {
    let Ok((mut troves, mut order)) = two(alloc, steps) else {
        shows(rt, "memory", false);
        return;
    };
    let Ok(mut wallets) = funded(alloc, account) else {
        shows(rt, "memory", false);
        return;
    };
    let mut surplus = Surplus::new(alloc);
    let mut pools = BEFORE;
    let wallet = wallets.read(account);
    let Ok(plan) = plan(alloc, &MARKET, &troves, &order, &wallet, 5_000_000_000, ONE) else {
        shows(rt, "it is planned", false);
        return;
    };
    let Ok(()) = reserve(&plan, account, &mut wallets, &mut surplus) else {
        shows(rt, "memory", false);
        return;
    };
    apply(
        &plan,
        account,
        &Hint::NONE,
        &mut wallets,
        &mut pools,
        &mut surplus,
        &mut troves,
        &mut order,
        steps,
    );
    same(
        rt,
        &read::wallet(&wallets, account),
        &[3_493_957_346, 3_000_000_000],
        "what is paid",
    );
    same(rt, &read::pools(&pools), &read::pools(&AFTER), "the pools");
    same(
        rt,
        &[surplus.read(1), surplus.read(2)],
        &[4_420_000_000, 0],
        "the surplus",
    );
    check_left(rt, &troves, &order);
}

// Of the two troves.
fn check_left<R: Abort>(rt: &R, troves: &Troves, order: &Order) {
    same(rt, &troves.count(), &1, "troves");
    shows(rt, "no first trove", troves.get(1).is_none());
    same(
        rt,
        &troves.get(2).map(read::trove),
        &Some(read::trove(&SECOND)),
        "the second trove",
    );
    same(rt, &troves.sums().stakes, &11_680_000_000, "the stakes");
    same(rt, &order.last(), &Some(2), "the list's end");
    same(rt, &order.find(1), &None, "not in the list");
    same(
        rt,
        &order.find(2),
        &Some(277_397_260_273_972_602),
        "its key",
    );
}

pub fn check<R: Abort, L: Ledger>(rt: &R, alloc: Global, steps: &mut Steps<L>) {
    // The owner of the second trove, of the first, which is closed, and one who has none.
    for account in [2, 1, 3] {
        check_redeemed(rt, alloc, account, steps);
    }
}
