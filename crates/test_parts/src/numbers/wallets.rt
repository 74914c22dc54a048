//! Wallets and surplus: payments, and each refusal at its edge and one beside it.

ghost use Rattle.std.specs.Prelude.{◌≡◌, []};
ghost use Rattle.liq_types.specs.Payments.{credited_in};
ghost use Rattle.liq_tables.specs.WithRoom.{HasRoom};

use crate::checks::{same, shows};
use liq_ledger::{Surplus, Wallets};
use liq_types::Refusal;
use liq_types::amounts::{ACCOUNTS, LIM};
use std::alloc::Global;
use std::process::Abort;

/// The greatest account.
const LAST: u32 = ACCOUNTS - 1;

/// The accounts have just these: collateral and LUSD.
fn check<R: Abort>(rt: &R, wallets: &Wallets, wants: &[(u32, u64, u64)]) {
    for (account, coll, lusd) in wants {
        let wallet = wallets.read(*account);
        same(rt, &[wallet.coll, wallet.lusd], &[*coll, *lusd], "a wallet");
    }
}

#[test]
fn payments(rt: HostRuntime) {
    let mut wallets = Wallets::new(rt.alloc());
    shows(&rt, "memory", wallets.reserve(1).is_ok());
    check(&rt, &wallets, &[(1, 0, 0)]);
    let paid = [wallets.fund(1, 10), wallets.take(1, 11), wallets.take(1, 4)];
    let short = Refusal::ShortCollateral { need: 11, have: 10 };
    same(
        &rt,
        &paid,
        &[Ok(()), Err(short), Ok(())],
        "more than there is is not taken, a part is",
    );
    check(&rt, &wallets, &[(1, 6, 0)]);
    // What has room already stays.
    shows(&rt, "memory", wallets.reserve(1).is_ok());
    let had = wallets.read(1);
    shows(&rt, "room", had.coll <= 6 && had.lusd == 0);
    wallets.pay(1, 2, 7);
    let charged = [
        wallets.charge(1, 9, 8),
        wallets.charge(1, 8, 8),
        wallets.charge(1, 8, 0),
    ];
    let short = Refusal::ShortCollateral { need: 9, have: 8 };
    let tokens = Refusal::ShortTokens { need: 8, have: 7 };
    same(
        &rt,
        &charged,
        &[Err(short), Err(tokens), Ok(())],
        "collateral is asked first, then LUSD",
    );
    check(&rt, &wallets, &[(1, 0, 7), (2, 0, 0)]);
}

#[test]
fn funds_to_the_limit(rt: HostRuntime) {
    let mut wallets = Wallets::new(rt.alloc());
    shows(&rt, "memory", wallets.reserve(LAST).is_ok());
    let funded = [wallets.fund(LAST, LIM), wallets.fund(LAST, 1)];
    let limit = Refusal::AmountLimit {
        sum: 10_000_000_000_000_000_001,
        limit: LIM,
    };
    same(
        &rt,
        &funded,
        &[Ok(()), Err(limit)],
        "to the limit, and past it",
    );
    check(&rt, &wallets, &[(LAST, LIM, 0)]);
}

/// The first account has 1 gwei and 5 micro-LUSD, and there is room for the last.
fn opened<R: Abort>(rt: &R, alloc: Global) -> Wallets
    ensures rows { result.rows ≡ credited_in [] 1 1 5 }
    ensures last { HasRoom result LAST }
{
    let mut wallets = Wallets::new(alloc);
    shows(rt, "memory", wallets.reserve(1).is_ok());
    shows(rt, "memory", wallets.reserve(LAST).is_ok());
    wallets.pay(1, 1, 5);
    wallets
}

#[test]
fn sends(rt: HostRuntime) {
    let mut wallets = opened(&rt, rt.alloc());
    same(&rt, &wallets.send(1, LAST, 5), &Ok(()), "all");
    check(&rt, &wallets, &[(1, 1, 0), (LAST, 0, 5)]);
}

#[test]
fn sends_too_much(rt: HostRuntime) {
    let mut wallets = opened(&rt, rt.alloc());
    let short = Refusal::ShortTokens { need: 6, have: 5 };
    same(
        &rt,
        &wallets.send(1, LAST, 6),
        &Err(short),
        "more than there is",
    );
    check(&rt, &wallets, &[(1, 1, 5), (LAST, 0, 0)]);
}

#[test]
fn sends_to_itself(rt: HostRuntime) {
    let mut wallets = Wallets::new(rt.alloc());
    shows(&rt, "memory", wallets.reserve(1).is_ok());
    wallets.pay(1, 1, 5);
    same(&rt, &wallets.send(1, 1, 5), &Ok(()), "all to itself");
    check(&rt, &wallets, &[(1, 1, 5)]);
}

#[test]
fn claims(rt: HostRuntime) {
    let mut surplus = Surplus::new(rt.alloc());
    shows(&rt, "memory", surplus.reserve(&[1, LAST]).is_ok());
    let nothing = surplus.read(1);
    surplus.add(1, 5);
    shows(&rt, "room", surplus.read(1) <= 5);
    shows(&rt, "memory", surplus.reserve(&[3, 1]).is_ok());
    surplus.add(1, 7);
    let read = [nothing, surplus.read(1), surplus.read(LAST)];
    same(&rt, &read, &[0, 12, 0], "nothing, both, and nothing");
    let taken = [surplus.take(1), surplus.take(1), surplus.take(2)];
    same(
        &rt,
        &taken,
        &[12, 0, 0],
        "all, nothing that is left, and nothing that was",
    );
}
