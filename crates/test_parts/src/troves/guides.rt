//! The guide of the ordered list: it tells between which accounts the one stands that a command
//! puts last.

use crate::checks::{same, shows};
use ListChange::{Gone, Put, Words};
use liq_list_index::Guide;
use liq_types::{Hint, ListChange};
use std::alloc::Global;
use std::process::Abort;

/// What a command changes, and the accounts before and after the one that it puts last.
type Told = (&'static [ListChange], Option<(Option<u32>, Option<u32>)>);

const NEW_WORDS: ListChange = Words {
    snap_stakes: 1,
    snap_coll: 1,
    sum_debt: 1,
};

const TOLD: [Told; 10] = [
    (&[], None),
    (
        &[Put {
            key: 20,
            account: 2,
        }],
        Some((None, None)),
    ),
    (
        &[Put {
            key: 40,
            account: 4,
        }],
        Some((Some(2), None)),
    ),
    (
        &[Put {
            key: 10,
            account: 1,
        }],
        Some((None, Some(2))),
    ),
    (
        &[Put {
            key: 25,
            account: 9,
        }],
        Some((Some(2), Some(4))),
    ),
    // An account moves: it is no neighbour of its own.
    (&[Put { key: 5, account: 2 }], Some((None, Some(1)))),
    (&[Put { key: 6, account: 2 }], Some((None, Some(1)))),
    (&[Gone { account: 9 }, NEW_WORDS], None),
    // A redemption: two troves are closed, and the next one stands elsewhere.
    (
        &[
            Gone { account: 2 },
            Gone { account: 1 },
            Put {
                key: 50,
                account: 4,
            },
        ],
        Some((None, None)),
    ),
    // At an equal key the greater account stands behind.
    (
        &[
            Put {
                key: 50,
                account: 7,
            },
            Put {
                key: 50,
                account: 5,
            },
        ],
        Some((Some(4), Some(7))),
    ),
];

fn neighbours(hint: Hint) -> (Option<u32>, Option<u32>) {
    (hint.prev, hint.next)
}

fn check<R: Abort>(rt: &R, alloc: Global) {
    let mut guide = Guide::new(alloc);
    for (changes, told) in &TOLD {
        match guide.follow(changes) {
            Ok(()) => {
                let hint = guide.hint(changes);
                same(rt, &hint.map(neighbours), told, "its neighbours")
            }
            Err(_) => shows(rt, "memory", false),
        }
    }
}

#[test]
fn guides(rt: HostRuntime) {
    check(&rt, rt.alloc());
}

// A key that fits no i64, and one below all that do.
const FAR: i128 = 10_000_000_000_000_000_000;

const LOW: i128 = -10_000_000_000_000_000_000;

const WHOLE: [(i128, u32); 5] = [(LOW, 6), (-4, 2), (20, 4), (20, 5), (FAR, 1)];

// A list that is there whole, and an account that comes among its entries.
#[test]
fn whole(rt: HostRuntime) {
    let Ok(mut guide) = Guide::of(rt.alloc(), &WHOLE) else {
        return shows(&rt, "memory", false);
    };
    agree(&rt, &guide, &WHOLE);
    for (key, account) in WHOLE {
        same(&rt, &guide.key_of(account), &Some(key), "its key");
    }
    let change = Put {
        key: 20,
        account: 3,
    };
    shows(&rt, "memory", guide.follow(&[change]).is_ok());
    same(
        &rt,
        &guide.neighbours(20, 3),
        &(Some(2), Some(4)),
        "the neighbours of one that comes",
    );
}

// How many accounts come and go: many times what a run of entries holds.
const MANY: u32 = 2_000;

// A key for each account and round. Some are equal.
fn key_of(account: u32, round: u32) -> i128 {
    i128::from((u64::from(account) * 7_919 + u64::from(round) * 104_729) % 1_511) - 700
}

// Who stands in the list in a round: all, one of three, six of seven, and at last a few.
fn stands(account: u32, round: u32) -> bool {
    match round {
        0 => true,
        1 => account % 3 == 0,
        2 => account % 7 != 0,
        _ => account < 40,
    }
}

// The neighbours of an entry in a sorted list, by going along it.
fn beside(list: &[(i128, u32)], entry: (i128, u32)) -> (Option<u32>, Option<u32>) {
    let mut before = None;
    for other in list {
        if *other > entry {
            return (before, Some(other.1));
        }
        if *other < entry {
            before = Some(other.1);
        }
    }
    (before, None)
}

// Each account has the neighbours that a plain sorted list gives.
fn agree<R: Abort>(rt: &R, guide: &Guide, list: &[(i128, u32)]) {
    for entry in list {
        let (key, account) = *entry;
        let told = guide.neighbours(key, account);
        same(
            rt,
            &told,
            &beside(list, *entry),
            "the neighbours of one of many",
        );
    }
}

// Puts and takes out all accounts as they stand in a round, and tells the entries.
fn follow<R: Abort>(rt: &R, guide: &mut Guide, round: u32, list: &mut Vec<(i128, u32)>) {
    for account in 0..MANY {
        let key = key_of(account, round);
        let change = if stands(account, round) {
            shows(rt, "memory", list.push((key, account)).is_ok());
            Put { key, account }
        } else {
            Gone { account }
        };
        shows(rt, "memory", guide.follow(&[change]).is_ok());
    }
}

#[test]
fn many(rt: HostRuntime) {
    let mut guide = Guide::new(rt.alloc());
    for round in 0..4 {
        let mut list = Vec::new(rt.alloc());
        follow(&rt, &mut guide, round, &mut list);
        list.sort_unstable();
        agree(&rt, &guide, &list);
    }
}
