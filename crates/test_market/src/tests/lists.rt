//! The lists of accounts.

use crate::tests::checks::shows;
use crate::tests::runs::{TWO_TROVES, after, is_accepted};
use liq_market::{AccountList, Market};
use liq_types::Call;
use std::alloc::Global;

/// Whether a list has so many accounts, and these behind the first `passed` of them.
fn tells(market: &Market, list: AccountList, passed: usize, all: u64, want: [u32; 3]) -> bool {
    let mut places = [77; 3];
    let told = market.accounts(list, passed, &mut places);
    matches!(told, Ok(count) if count == all) && places == want
}

fn lists(alloc: Global) -> [bool; 10] {
    let Some(mut market) = after(alloc, &TWO_TROVES) else {
        return [false; 10];
    };
    let before = [
        tells(&market, AccountList::Troves, 0, 2, [2, 1, 77]),
        tells(&market, AccountList::Troves, 1, 2, [1, 77, 77]),
        tells(&market, AccountList::Troves, 2, 2, [77, 77, 77]),
        tells(&market, AccountList::Deposits, 0, 1, [1, 77, 77]),
        tells(&market, AccountList::Wallets, 0, 1, [1, 77, 77]),
        tells(&market, AccountList::Touched, 0, 0, [77, 77, 77]),
    ];
    let liquidated = is_accepted(&mut market, &Call::Liquidate(3, 2));
    let [troves, passed, past, deposits, wallets, price] = before;
    [
        troves,
        passed,
        past,
        deposits,
        wallets,
        price,
        liquidated,
        tells(&market, AccountList::Touched, 0, 2, [3, 2, 77]),
        tells(&market, AccountList::Troves, 0, 1, [1, 77, 77]),
        tells(&market, AccountList::Wallets, 0, 2, [1, 3, 77]),
    ]
}

#[test]
fn lists_of_accounts(rt: HostRuntime) {
    let is_right = lists(rt.alloc()) == [true; 10];
    shows(&rt, "lists of accounts", is_right);
}
