//! What a store tells to whoever follows its list.

use crate::tests::checks::{NOWHERE, shows};
use crate::tests::runs::{disk, funding};
use liq_outside::MemoryDisk;
use liq_store::Store;
use liq_types::{Call, Command, Hint, HintWords, ListChange, Request};
use std::alloc::Global;
use std::test::Fail;

// `1 NUMBER open 1 10000000000 4000000000 1000000000000000000 - -`
fn opening(number: u64) -> Request {
    Request::Do(Command {
        client: 1,
        number,
        call: Call::Open(
            1,
            10_000_000_000,
            4_000_000_000,
            1_000_000_000_000_000_000,
            HintWords::NONE,
        ),
    })
}

// How many changes a store tells, where these are the words before any liquidation and the one
// trove.
fn told(changes: &[ListChange]) -> u64 {
    match changes {
        [] => 0,
        [words] if are_words(words) => 1,
        [words, put] if are_words(words) && is_trove(put) => 2,
        _ => NOWHERE,
    }
}

fn are_words(change: &ListChange) -> bool {
    matches!(
        change,
        ListChange::Words {
            snap_stakes: 0,
            snap_coll: 0,
            sum_debt: 0
        }
    )
}

fn is_trove(change: &ListChange) -> bool {
    matches!(
        change,
        ListChange::Put {
            key: 422_000_000_000_000_000,
            account: 1
        }
    )
}

// What it tells once it is opened, once a trove is, once that is refused, and once the changes were
// let go.
fn tell_each(store: &mut Store<MemoryDisk>) -> [u64; 4] {
    let opened = told(store.changes());
    let _ = store.call(&funding(1), &Hint::NONE);
    let _ = store.call(&opening(2), &Hint::NONE);
    let put = told(store.changes());
    let _ = store.call(&opening(3), &Hint::NONE);
    let refused = told(store.changes());
    store.clear_changes();
    [opened, put, refused, told(store.changes())]
}

// The same, and what the store tells where it is opened again.
fn tell_all(alloc: Global, left: MemoryDisk, right: MemoryDisk) -> ([u64; 4], u64) {
    let Ok(mut store) = Store::open(alloc, left, right) else {
        return ([NOWHERE; 4], NOWHERE);
    };
    let each = tell_each(&mut store);
    let (left, right) = store.close();
    match Store::open(alloc, left, right) {
        Ok(store) => (each, told(store.changes())),
        Err(_) => (each, NOWHERE),
    }
}

#[test]
fn changes_are_told(rt: HostRuntime) -> Result<(), Fail> {
    let alloc = rt.alloc();
    let right = disk(alloc, &[], &[])?;
    let told = tell_all(alloc, disk(alloc, &[], &[])?, right);
    // Opened, with a trove, refused one more, let go; and opened again.
    let is_right = told == ([1, 2, 2, 0], 2);
    shows(&rt, "what a store tells of its list", is_right);
    Ok(())
}
