//! A store that is closed and opened again.

use crate::tests::checks::shows;
use crate::tests::runs::{Made, funding, make_calls, run};
use liq_outside::MemoryDisk;
use liq_store::{Side, Store};
use liq_types::{Answer, Command, Hint, Info, Query, Reply, Request};
use std::alloc::Global;
use std::test::Fail;

// What a store answers to queries and to a command that comes again, and how many commands it
// accepted: none where those that it tells are others, or stand on the other disk.
#[derive(Clone, Copy)]
struct Asked {
    answers: [Answer; 5],
    accepted: u64,
}

fn answer(store: &mut Store<MemoryDisk>, query: Query) -> Answer {
    store.call(&Request::Ask(query), &Hint::NONE)
}

fn ask(store: &mut Store<MemoryDisk>) -> Asked {
    let answers = [
        answer(store, Query::Wallet(1)),
        answer(store, Query::System),
        answer(store, Query::Pools),
        answer(store, Query::NextNumber(1)),
        store.call(&funding(3), &Hint::NONE),
    ];
    let accepted = if are_told(store) && matches!(store.side(), Side::Left) {
        store.protocol().records()
    } else {
        0
    };
    Asked { answers, accepted }
}

// Whether this is the command of this number.
fn is_asked(command: &Command, number: u64) -> bool {
    Request::Do(*command) == funding(number)
}

// Whether these are the three commands.
fn are_three(commands: &[Command]) -> bool {
    match commands {
        [one, two, three] => is_asked(one, 1) && is_asked(two, 2) && is_asked(three, 3),
        _ => false,
    }
}

// Whether the three commands are told as accepted.
fn are_told(store: &mut Store<MemoryDisk>) -> bool {
    match store.accepted() {
        Ok(commands) => are_three(&commands),
        Err(_) => false,
    }
}

// What is asked of a store after three commands that it accepted, where it was opened so often.
fn ask_again(alloc: Global, made: Made) -> Asked {
    let Made { left, right, .. } = made;
    match Store::open(alloc, left, right) {
        Ok(mut store) => ask(&mut store),
        Err(_) => Asked {
            answers: [Answer::NoMemory; 5],
            accepted: 0,
        },
    }
}

const WALLET: Answer = Answer::Reply(Reply::Told(Info::Wallet {
    coll: 30_000_000_000,
    lusd: 0,
}));

#[test]
fn closed_and_opened_again(rt: HostRuntime) -> Result<(), Fail> {
    let alloc = rt.alloc();
    let once = ask_again(alloc, run(alloc, &[], 3)?);
    let made = run(alloc, &[], 3)?;
    let twice = ask_again(alloc, make_calls(alloc, made.left, made.right, 0));
    let are_three = (once.accepted, twice.accepted) == (3, 3);
    shows(&rt, "three are accepted, opened again too", are_three);
    let are_same = once.answers[0] == WALLET && once.answers == twice.answers;
    shows(&rt, "the wallet, and the same answers", are_same);
    Ok(())
}
