//! Forks.

use crate::tests::checks::shows;
use crate::tests::runs::{TWO_TROVES, after, is_accepted, save};
use liq_market::Market;
use liq_types::{Call, Info, Query, Reply};
use std::alloc::Global;

/// Whether a fork begins with what its market has, and each then goes its own way: an account is
/// funded in both.
fn goes_its_own_way(alloc: Global, market: &mut Market, account: u32) -> bool {
    let Ok(mut fork) = market.fork(alloc) else {
        return false;
    };
    let begins = save(alloc, market).as_slice() == save(alloc, &fork).as_slice();
    let forked = is_accepted(&mut fork, &Call::Fund(account, 1));
    let went = is_accepted(market, &Call::Fund(account, 2));
    begins
        && forked
        && went
        && fork.ask(&Query::Wallet(account)) == wallet(1)
        && market.ask(&Query::Wallet(account)) == wallet(2)
}

fn wallet(coll: u64) -> Reply {
    Reply::Told(Info::Wallet { coll, lusd: 0 })
}

fn fork_two_troves(alloc: Global) -> [bool; 3] {
    let Some(mut market) = after(alloc, &TWO_TROVES) else {
        return [false; 3];
    };
    let amid = goes_its_own_way(alloc, &mut market, 8);
    let emptied = is_accepted(&mut market, &Call::Liquidate(3, 2));
    [amid, emptied, goes_its_own_way(alloc, &mut market, 9)]
}

// Also where the Stability Pool has come into another epoch, which an image with no records could
// not have.
#[test]
fn forks_go_their_own_way(rt: HostRuntime) {
    let is_right = fork_two_troves(rt.alloc()) == [true; 3];
    shows(&rt, "forks", is_right);
}
