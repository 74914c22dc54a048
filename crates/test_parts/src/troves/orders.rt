//! The ordered list: what is put in at any hint, and what is read and taken out.

ghost use Rattle.std.specs.Prelude.{◌≡◌};

use crate::checks::{same, shows};
use liq_order::Order;
use liq_types::{Hint, NoMemory, Steps};
use std::alloc::Global;
use std::marker::Brand;
use std::process::Abort;
use std::sync::ledger::{Blank, Ledger};

/// What is done to a list, or seen of it.
#[derive(Clone, Copy)]
enum Turn {
    /// An entry is put in: its key, its account, and the accounts of the hint.
    Put(i128, u32, Option<(u32, u32)>),
    /// The account is taken out.
    Out(u32),
    /// Just these accounts are there, from the end to the front.
    List([Option<u32>; 6]),
}

use Turn::{List, Out, Put};

const ALL_FIVE: [Option<u32>; 6] = [Some(4), Some(3), Some(9), Some(2), Some(1), None];

const FIVE: Turn = List(ALL_FIVE);

const TURNS: [Turn; 40] = [
    List([None; 6]),
    Put(10, 1, None),
    Put(20, 2, None),
    Put(30, 3, None),
    Put(40, 4, None),
    // One more between the second and the third, whatever the hint.
    Put(25, 9, Some((2, 3))),
    FIVE,
    Out(9),
    Put(25, 9, Some((3, 2))),
    FIVE,
    Out(9),
    Put(25, 9, Some((7, 8))),
    FIVE,
    Out(9),
    Put(25, 9, Some((4, 1))),
    FIVE,
    Out(9),
    Put(25, 9, Some((1, 2))),
    FIVE,
    Out(9),
    // At an equal key the greater account stands behind.
    Put(20, 5, None),
    List([Some(4), Some(3), Some(5), Some(2), Some(1), None]),
    Put(20, 0, None),
    List([Some(4), Some(3), Some(5), Some(2), Some(0), Some(1)]),
    Out(1),
    Out(4),
    Put(-7, 4, None),
    List([Some(3), Some(5), Some(2), Some(0), Some(4), None]),
    // Some leave, one of them comes again, and one that was never there comes between.
    Out(2),
    Out(5),
    List([Some(3), Some(0), Some(4), None, None, None]),
    Put(20, 5, None),
    Put(7, 6, None),
    List([Some(3), Some(5), Some(0), Some(6), Some(4), None]),
    // With these more than a quarter has left. Then they come again.
    Out(0),
    Out(6),
    List([Some(3), Some(5), Some(4), None, None, None]),
    Put(20, 2, None),
    Put(20, 0, None),
    List([Some(3), Some(5), Some(2), Some(0), Some(4), None]),
];

/// The same accounts, along the nodes from the first.
fn along<R: Abort, L: Ledger>(
    rt: &R,
    order: &Order,
    accounts: &[Option<u32>; 6],
    steps: &mut Steps<L>,
) {
    let nodes = order.nodes();
    let mut next = nodes.first();
    for account in accounts.iter().rev() {
        if let (Some(account), Some(at)) = (*account, next) {
            same(rt, &nodes.at(account, steps), &next, "its place");
            let node = nodes.read(at, steps);
            same(rt, &node.account, &account, "an account");
            next = node.next;
        }
    }
    shows(rt, "the end", next.is_none());
}

fn listed<R: Abort>(rt: &R, order: &Order, accounts: &[Option<u32>; 6]) {
    let mut next = order.last();
    for account in accounts {
        same(rt, &next, account, "an account");
        next = match next {
            Some(account) => before(rt, order, account),
            None => None,
        };
    }
    same(rt, &next, &None, "the front");
}

fn before<R: Abort>(rt: &R, order: &Order, account: u32) -> Option<u32> {
    shows(rt, "it is there", order.find(account).is_some());
    order.before(account)
}

fn put<R: Abort, L: Ledger>(
    rt: &R,
    order: &mut Order,
    key: i128,
    account: u32,
    hint: Option<(u32, u32)>,
    steps: &mut Steps<L>,
) {
    let hint = Hint {
        prev: hint.map(|hint| hint.0),
        next: hint.map(|hint| hint.1),
        version: 0,
    };
    shows(rt, "it is not there", order.find(account).is_none());
    shows(rt, "memory", order.reserve(1).is_ok());
    order.insert(key, account, &hint, steps);
    same(rt, &order.find(account), &Some(key), "its key");
}

fn out<R: Abort>(rt: &R, order: &mut Order, account: u32) {
    shows(rt, "it is there", order.find(account).is_some());
    order.remove(account);
    same(rt, &order.find(account), &None, "it is gone");
}

/// The same four and one more, all at once.
fn made_at_once(alloc: Global) -> Result<Order, NoMemory> {
    let Ok(pairs) = Vec::from_slice(alloc, &[(40, 4), (25, 9), (10, 1), (30, 3), (20, 2)]) else {
        return Err(NoMemory);
    };
    Order::from_ranked(alloc, pairs)
}

fn check_turns<R: Abort, L: Ledger>(rt: &R, alloc: Global, blank: Blank)
    requires name { blank.name ≡ L.name }
    requires parts { blank.parts ≡ L.parts }
    requires one { L.parts ≡ 1 }
{
    let mut steps = Steps::<L>::new(blank);
    let Ok(order) = made_at_once(alloc) else {
        shows(rt, "memory", false);
        return;
    };
    listed(rt, &order, &ALL_FIVE);
    along(rt, &order, &ALL_FIVE, &mut steps);
    let mut order = Order::new(alloc);
    for turn in TURNS {
        match turn {
            Put(key, account, hint) => put(rt, &mut order, key, account, hint, &mut steps),
            Out(account) => out(rt, &mut order, account),
            List(accounts) => {
                listed(rt, &order, &accounts);
                along(rt, &order, &accounts, &mut steps);
            }
        }
    }
}

#[test]
fn hints(rt: HostRuntime) {
    // odd: steps counted
    check_turns::<HostRuntime, Brand>(&rt, rt.alloc(), Blank::new(1));
}
