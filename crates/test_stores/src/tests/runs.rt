//! Calls on stores over disks in memory.
ghost use Rattle.std.specs.Prelude.{◌≡◌};
ghost use Rattle.liq_types.specs.declared.requests.Call.TheVariants.{Fund};
ghost use Rattle.liq_types.specs.declared.requests.Request.TheVariants.{Do};

use liq_outside::MemoryDisk;
use liq_store::Store;
use liq_types::{Answer, Call, Command, Hint, Request};
use std::alloc::{AllocError, Global};

/// A disk that holds these bytes, and whose device calls of these numbers fail.
pub fn disk(alloc: Global, bytes: &[u8], failing: &[u64]) -> Result<MemoryDisk, AllocError> {
    Ok(MemoryDisk::new(alloc, bytes.to_vec(alloc)?, failing.to_vec(alloc)?))
}

/// `1 NUMBER fund 1 10000000000`
pub fn funding(number: u64) -> Request
    ensures { result ≡ Do (record { client = 1; number = number; call = Fund 1 10000000000 }) }
{
    Request::Do(Command {
        client: 1,
        number,
        call: Call::Fund(1, 10_000_000_000),
    })
}

/// How many calls a run makes at most.
pub const CALLS: u64 = 6;

/// What a store answered to commands with the numbers from 1 on: none where it was not opened.
#[derive(Drop)]
pub struct Made {
    pub left: MemoryDisk,
    pub right: MemoryDisk,
    pub answers: [Option<Answer>; 6],
    pub stopped: Option<u64>,
}

// What the store answers to so many calls.
fn answers(store: &mut Store<MemoryDisk>, calls: u64) -> [Option<Answer>; 6] {
    let mut answers = [None; 6];
    for before in 0..calls.min(CALLS) {
        let answer = store.call(&funding(before + 1), &Hint::NONE);
        answers[before as usize] = Some(answer);
    }
    answers
}

/// Opens the store, makes so many calls and closes it.
pub fn make_calls(alloc: Global, left: MemoryDisk, right: MemoryDisk, calls: u64) -> Made {
    match Store::open(alloc, left, right) {
        Ok(mut store) => {
            let answers = answers(&mut store, calls);
            let stopped = store.stopped();
            let (left, right) = store.close();
            Made {
                left,
                right,
                answers,
                stopped,
            }
        }
        Err(fault) => Made {
            left: fault.left,
            right: fault.right,
            answers: [None; 6],
            stopped: None,
        },
    }
}

/// Makes so many calls on two new disks, of which the left one's device calls of these numbers
/// fail.
pub fn run(alloc: Global, failing: &[u64], calls: u64) -> Result<Made, AllocError> {
    let right = disk(alloc, &[], &[])?;
    Ok(make_calls(alloc, disk(alloc, &[], failing)?, right, calls))
}
