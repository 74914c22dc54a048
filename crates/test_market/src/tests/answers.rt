//! What a market answers.

use crate::tests::checks::shows;
use crate::tests::runs::says;
use liq_market::Market;
use liq_market::laws::{markets_are_sound, markets_stand, saves_are_loaded};
use liq_types::{Call, Command, Info, NoMemory, Query, Refusal, Reply, Request};
use std::alloc::Global;

fn funding(number: u64) -> Command {
    Command {
        client: 1,
        number,
        call: Call::Fund(5, 7),
    }
}

fn is(reply: &Result<Reply, NoMemory>, want: Reply) -> bool {
    match *reply {
        Ok(reply) => reply == want,
        Err(_) => false,
    }
}

/// What a market answers to a preview, the command, the command again, a number too far, its own
/// next number, and a query; and whether what it saves is loaded.
fn answers(alloc: Global) -> [bool; 7] {
    let mut market = Market::new(alloc);
    // odd: law called
    markets_stand(&market);
    markets_are_sound(&market);
    let previewed = market.preview(&funding(1));
    let funded = market.answer(&Request::Do(funding(1)));
    let again = market.answer(&Request::Do(funding(1)));
    let far = market.answer(&Request::Do(funding(3)));
    let (number, next) = market.answer_next(1, &Call::Fund(5, 7));
    let told = market.ask(&Query::Wallet(5));
    [
        says(&previewed, 3, [0; 6]),
        says(&funded, 3, [0; 6]),
        says(&again, 3, [0; 6]),
        is(&far, Reply::No(Refusal::OutOfTurn { expected: 2 })),
        number == 2 && says(&next, 3, [0; 6]),
        told == Reply::Told(Info::Wallet { coll: 14, lusd: 0 }),
        saves_are_loaded(alloc, &market).is_ok(),
    ]
}

#[test]
fn answers_are_those_of_the_rules(rt: HostRuntime) {
    let is_right = answers(rt.alloc()) == [true; 7];
    shows(&rt, "what a market answers", is_right);
}
