//! Accounts that are aimed, settled, kept, opened and taken out, beside a plain map.

use crate::checks::shows;
use liq_list_keys::{KeyIndex, ShortKey};
use std::collections::BTreeMap;
use std::process::Abort;

const ACCOUNTS: u32 = 24;

// How many changes are drawn.
const CHANGES: u32 = 3_000;

// What the plain map has of an account.
#[derive(Clone, Copy)]
struct Known {
    key: Option<i128>,
    next: Option<i128>,
    // Whether it was aimed, and not settled since.
    aimed: bool,
}

// The keys at the ends of what fits and beside them, none, and some small ones.
fn key_of(number: u32) -> Option<i128> {
    match number % 16 {
        0 | 1 => None,
        2 => Some(i128::from(i64::MIN)),
        3 => Some(i128::from(i64::MIN) + 1),
        4 => Some(i128::from(i64::MIN) - 1),
        5 => Some(i128::from(i64::MAX)),
        6 => Some(i128::from(i64::MAX) + 1),
        7 => Some(i128::MIN),
        8 => Some(i128::MAX),
        _ => Some(i128::from(number % 911) - 455),
    }
}

// Whether a key is kept in 8 bytes.
fn is_near(key: Option<i128>) -> bool {
    match key {
        Some(key) => key > i128::from(i64::MIN) && key <= i128::from(i64::MAX),
        None => false,
    }
}

fn plain(map: &BTreeMap<u32, Known>, account: u32) -> Known {
    match map.get(&account) {
        Some(plain) => *plain,
        None => Known {
            key: None,
            next: None,
            aimed: false,
        },
    }
}

// Gives an account another key at once. That is done where nothing moves it, and both keys are
// near.
fn keep<R: Abort>(rt: &R, stands: &mut KeyIndex, account: u32, old: Known, number: u32) -> Known {
    let Some(key) = key_of(number) else {
        return old;
    };
    let done = !old.aimed && is_near(old.key) && is_near(Some(key));
    let (Some(kept), Some(to)) = (stands.short_key(account), ShortKey::of(key)) else {
        shows(rt, "not kept", !done);
        return old;
    };
    shows(rt, "kept", done);
    shows(rt, "the kept key", old.key == Some(i128::from(kept.key)));
    stands.keep(account, to);
    Known {
        key: Some(key),
        next: Some(key),
        aimed: false,
    }
}

// Keeps an account at once under a near key, wherever it stood.
fn opened<R: Abort>(rt: &R, stands: &mut KeyIndex, account: u32, old: Known, number: u32) -> Known {
    let Some(key) = key_of(number) else {
        return old;
    };
    let Some(kept) = ShortKey::of(key) else {
        return old;
    };
    shows(rt, "memory", stands.open(account, kept).is_ok());
    Known {
        key: Some(key),
        next: Some(key),
        aimed: false,
    }
}

// Takes out an account, where it is kept.
fn left<R: Abort>(rt: &R, stands: &mut KeyIndex, account: u32, old: Known) -> Known {
    let Some(_) = stands.short_key(account) else {
        return old;
    };
    shows(rt, "kept", !old.aimed && is_near(old.key));
    stands.leave(account);
    Known {
        key: None,
        next: None,
        aimed: false,
    }
}

// One change, and where the account stands then.
fn change<R: Abort>(rt: &R, stands: &mut KeyIndex, account: u32, old: Known, number: u32) -> Known {
    match number / 64 % 6 {
        0 => {
            let next = key_of(number);
            shows(rt, "memory", stands.aim(account, next).is_ok());
            Known {
                key: old.key,
                next,
                aimed: true,
            }
        }
        1 => keep(rt, stands, account, old, number),
        2 => opened(rt, stands, account, old, number),
        3 => left(rt, stands, account, old),
        side => {
            stands.settle(account, side == 4);
            let key = if side == 4 { old.next } else { old.key };
            Known {
                key,
                next: key,
                aimed: false,
            }
        }
    }
}

// All stand where the plain map has them, and no other takes a place: the near ones that nothing
// moves are kept, and the others that stand, or are aimed, stand apart.
fn agree<R: Abort>(rt: &R, stands: &KeyIndex, map: &BTreeMap<u32, Known>) {
    let mut kept: u64 = 0;
    let mut apart: usize = 0;
    for account in 0..ACCOUNTS {
        let want = plain(map, account);
        let got = stands.account_key(account);
        shows(rt, "the key", got.key == want.key);
        shows(rt, "the next key", got.next == want.next);
        if want.aimed || want.key.is_some() && !is_near(want.key) {
            apart = apart.wrapping_add(1);
        } else if want.key.is_some() {
            kept = kept.wrapping_add(1);
        }
    }
    shows(rt, "kept", stands.count_kept() == kept);
    shows(rt, "apart", stands.count_apart() == apart);
}

// A number for each change.
fn drawn(index: u32) -> u32 {
    let mixed = index.wrapping_mul(2_654_435_761);
    (mixed ^ mixed >> 15).wrapping_mul(2_246_822_519) >> 7
}

#[test]
fn beside_a_map(rt: HostRuntime) {
    let mut stands = KeyIndex::new(rt.alloc());
    let mut map = BTreeMap::new(rt.alloc());
    for index in 0..CHANGES {
        let number = drawn(index);
        let account = number / 256 % ACCOUNTS;
        let old = plain(&map, account);
        let new = change(&rt, &mut stands, account, old, number);
        shows(&rt, "memory", map.insert(account, new).is_ok());
        agree(&rt, &stands, &map);
    }
}
