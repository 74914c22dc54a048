//! Turns at a plain mutex.
ghost use Rattle.std.specs.Prelude.{◌<◌};
ghost use denote.Param.Send.{IsSync};

use super::counts::Counted;
use std::sync::{Mutex, Wait};
use std::thread::{Threads, join};

/// So many turns of each thread at once, and how many turns were made.
pub fn run<R: Threads + Wait + Sync>(rt: &R, threads: u32, each: u64) -> u64 {
    let shared = Mutex::new(Counted { turns: 0 });
    at_once(rt, &shared, threads, each);
    shared.into_inner().turns
}

fn turns<R: Wait>(rt: &R, shared: &Mutex<Counted>, each: u64) {
    for _ in 0..each {
        let mut counted = shared.lock(rt);
        counted.turns = counted.turns.wrapping_add(1);
    }
}

fn at_once<R: Threads + Wait + Sync>(rt: &R, shared: &Mutex<Counted>, threads: u32, each: u64) {
    if threads <= 1 {
        turns(rt, shared, each);
        return;
    }
    join(
        rt,
        || turns(rt, shared, each),
        || -> ()
            requires { IsSync R.row × (1 < threads) }
        { at_once(rt, shared, threads - 1, each) },
    );
}
