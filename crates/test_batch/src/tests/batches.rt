//! Batches.

use crate::tests::{is, shows};
use liq_batch::{
    Batch, Command96, Fault, Query64, answer_lines, ask_all, do_all, next_all, preview_all,
};
use liq_market::{AccountList, Market};
use liq_replies96::Reply96;
use liq_types::{Call, Command};
use liq_wire::encode;
use std::alloc::Global;

const NONE: Reply96 = Reply96 {
    kind: 0,
    which: 0,
    count: 0,
    zero: [0; 5],
    values: [0; 11],
};

/// Client 1 funds an account with 7.
fn funding(number: u64, account: u32) -> Command96 {
    let command = Command {
        client: 1,
        number,
        call: Call::Fund(account, 7),
    };
    Command96 {
        bytes: encode(&command),
    }
}

fn is_over(batch: &Batch, done: usize) -> bool {
    batch.done == done && batch.fault.is_none()
}

fn stops_at(batch: &Batch, done: usize, place: u8) -> bool {
    batch.done == done && matches!(batch.fault, Some(Fault::Bad(at)) if at == place)
}

/// Whom the last accepted command touched, where that is one account at most; 0 where it is nobody.
fn touched(market: &Market) -> u32 {
    let mut places = [0; 1];
    let told = market.accounts(AccountList::Touched, 0, &mut places);
    if told.is_err() {
        return 77;
    }
    places[0]
}

/// What is answered to commands that are looked at, done, and numbered, and to queries. Behind them
/// account 5 has 7, and account 6 has 14.
fn batches(market: &mut Market) -> [bool; 8] {
    let mut replies = [NONE; 3];
    let looked = preview_all(market, &[funding(1, 5), funding(2, 5)], &mut replies);
    let is_looked = is_over(&looked, 2)
        && is(&replies[0], [1, 3, 0], 0, 0)
        && is(&replies[1], [3, 70, 1], 1, 0)
        && touched(market) == 0;
    let zero = Command96 { bytes: [0; 96] };
    let done = do_all(market, &[funding(1, 5), funding(1, 5), zero], &mut replies);
    let is_done = stops_at(&done, 2, 0) && touched(market) == 5;
    let [first, again, why] = replies;
    let mut commands = [funding(0, 6), funding(0, 6), funding(3, 6)];
    let next = next_all(market, &mut commands, &mut replies);
    let is_next = stops_at(&next, 2, 8) && touched(market) == 6;
    let is_numbered = commands[1].bytes == funding(3, 6).bytes;
    let wallet = Query64 {
        topic: 1,
        account: 6,
    };
    let asked = ask_all(market, &[wallet], &mut replies);
    [
        is_looked,
        is_done,
        is(&first, [1, 3, 0], 0, 0) && is(&again, [1, 3, 0], 0, 0),
        is(&why, [4, 0, 1], 0, 0),
        is_next,
        is_numbered,
        is_over(&asked, 1),
        is(&replies[0], [2, 1, 2], 14, 0),
    ]
}

#[test]
fn batches_are_answered(rt: HostRuntime) {
    let mut market = Market::new(rt.alloc());
    let is_right = batches(&mut market) == [true; 8];
    shows(&rt, "batches", is_right);
}

/// A text of two lines, a line that is none, and one that is not ended.
fn lines(alloc: Global, market: &mut Market) -> [bool; 4] {
    let mut out = [0; 600];
    let told = answer_lines(
        alloc,
        market,
        b"1 1 fund 5 7\n? wallet 5\n!\n? pools",
        &mut out,
    );
    let mut then = [0; 256];
    let more = answer_lines(alloc, market, b"? next_number 1\n? pools", &mut then);
    [
        told.taken == 24 && told.written == 7 && told.fault.is_some(),
        out.starts_with(b"ok\n7 0\n"),
        more.taken == 16 && more.written == 2 && more.fault.is_none(),
        then.starts_with(b"2\n"),
    ]
}

#[test]
fn lines_are_answered(rt: HostRuntime) {
    let mut market = Market::new(rt.alloc());
    let is_right = lines(rt.alloc(), &mut market) == [true; 4];
    shows(&rt, "lines", is_right);
}
