//! Markets that have come some way.

use liq_market::Market;
use liq_types::{Call, Done, HintWords, NoMemory, Reply};
use std::alloc::Global;

/// Any fee is allowed.
const ANY: u64 = 1_000_000_000_000_000_000;

/// Opens a trove of 4,220 LUSD.
pub const fn open(account: u32, coll: u64) -> Call {
    Call::Open(account, coll, 4_000_000_000, ANY, HintWords::NONE)
}

/// Two troves of 4,220 LUSD each, and just as much in the Stability Pool. Behind it the trove of
/// account 2 may be liquidated, which empties the pool: its epoch is then the second.
pub const TWO_TROVES: [Call; 7] = [
    Call::Fund(1, 200_000_000_000),
    Call::Fund(2, 5_000_000_000),
    Call::Open(1, 100_000_000_000, 4_000_000_000, ANY, HintWords::NONE),
    Call::Open(2, 5_000_000_000, 4_000_000_000, ANY, HintWords::NONE),
    Call::Send(2, 1, 4_000_000_000),
    Call::Provide(1, 4_220_000_000),
    Call::Price(900_000_000),
];

/// A market after these calls of client 1, each of which has to be accepted; none where one isn't.
pub fn after(alloc: Global, calls: &[Call]) -> Option<Market> {
    let mut market = Market::new(alloc);
    for call in calls {
        if !is_accepted(&mut market, call) {
            return None;
        }
    }
    Some(market)
}

/// Whether a call of client 1 is accepted.
pub fn is_accepted(market: &mut Market, call: &Call) -> bool {
    let (_, reply) = market.answer_next(1, call);
    is_said(&reply)
}

pub fn is_said(reply: &Result<Reply, NoMemory>) -> bool {
    matches!(*reply, Ok(Reply::Said(_)))
}

/// Whether a reply is that of an accepted command of this kind, with these values.
pub fn says(reply: &Result<Reply, NoMemory>, kind: u8, values: [u64; 6]) -> bool {
    match *reply {
        Ok(reply) => reply == Reply::Said(Done { kind, values }),
        Err(_) => false,
    }
}

/// The save of a market; empty where there is no memory.
pub fn save(alloc: Global, market: &Market) -> Vec<u8> {
    match market.save(alloc) {
        Ok(bytes) => bytes,
        Err(_) => Vec::new(alloc),
    }
}
