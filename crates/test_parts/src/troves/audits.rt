//! An audit of what the Stability Pool gave.

use crate::checks::{same, shows};
use liq_audit::{EngineRow, Row, audit};
use liq_types::PoolEvent;

/// Two depositors share two offsets, and the first puts in more between.
const EVENTS: [PoolEvent; 5] = [
    PoolEvent::Own {
        account: 1,
        put: 100,
        paid: 0,
        gain: 0,
        amount: 100,
    },
    PoolEvent::Own {
        account: 2,
        put: 200,
        paid: 0,
        gain: 0,
        amount: 200,
    },
    PoolEvent::Offset {
        debt: 100,
        coll: 70,
        total: 300,
        rise: 0,
    },
    PoolEvent::Own {
        account: 1,
        put: 50,
        paid: 0,
        gain: 23,
        amount: 116,
    },
    PoolEvent::Offset {
        debt: 50,
        coll: 30,
        total: 250,
        rise: 0,
    },
];

const ENGINE: [EngineRow; 2] = [
    EngineRow {
        account: 1,
        balance: 92,
        gain: 36,
    },
    EngineRow {
        account: 2,
        balance: 106,
        gain: 62,
    },
];

/// The account, and of its balance and of its gain: the least, the most, what the protocol gives,
/// and its allowance.
type Told = (u32, [u128; 4], [u128; 4]);

const WANT: [Told; 2] = [
    (1, [92, 94, 92, 3], [36, 39, 36, 31]),
    (2, [106, 108, 106, 2], [61, 64, 62, 16]),
];

fn read(row: &Row) -> Told {
    let balance = [
        row.balance_lo,
        row.balance_hi,
        u128::from(row.balance),
        u128::from(row.balance_allow),
    ];
    let gain = [
        row.gain_lo,
        row.gain_hi,
        u128::from(row.gain),
        u128::from(row.gain_allow),
    ];
    (row.account, balance, gain)
}

#[test]
fn audits_two_depositors(rt: HostRuntime) {
    let Ok(rows) = audit(rt.alloc(), &EVENTS, &ENGINE) else {
        shows(&rt, "an audit", false);
        return;
    };
    same(&rt, &rows.len(), &2, "rows");
    for (row, want) in rows.iter().zip(WANT) {
        same(&rt, &read(row), &want, "a row");
    }
}
