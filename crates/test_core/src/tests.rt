//! The tests, and what they share.

ghost use Rattle.std.specs.Prelude.{◌≡◌};

use crate::bytes::{Version, checkpoint, set_second};
use crate::outcomes::{Outcome, of_checkpoint, of_image, of_protocol};
use crate::runs::{OPENING, Run, all_runs};
use liq_core::laws::protocols_stand;
use liq_core::{Protocol, Turn};
use liq_types::amounts::LIM_OF_VERSION_1;
use liq_types::{Call, Command, Hint, NoMemory, Steps};
use std::alloc::{AllocError, Global};
use std::marker::Brand;
use std::process::Abort;
use std::sync::ledger::{Blank, Ledger};

// Stops the test where this does not hold.
fn shows<R: Abort>(rt: &R, run: &str, what: &str, holds: bool) {
    assert!(rt; holds, "{run}: {what}");
}

// Plans a command, makes room for it and applies it. Answers whether it was accepted.
fn accept<L: Ledger>(protocol: &mut Protocol, command: &Command, steps: &mut Steps<L>) -> bool {
    let planned = match protocol.plan(command) {
        Ok(Turn::New(planned)) => planned,
        _ => return false,
    };
    match protocol.reserve(&planned) {
        Ok(()) => {
            let _ = protocol.apply(planned, &Hint::NONE, steps);
            true
        }
        Err(NoMemory) => false,
    }
}

fn numbered(number: u64, call: Call) -> Command
    ensures { result ≡ record { client = 1; number = number; call = call } }
{
    Command {
        client: 1,
        number,
        call,
    }
}

// Calls of client 1, each under the number behind the last that was accepted, of which the first is
// given. Answers the number that comes next.
fn make_calls<L: Ledger>(
    protocol: &mut Protocol,
    first: u64,
    calls: &[Call],
    steps: &mut Steps<L>,
) -> u64 {
    let mut number = first;
    for call in calls {
        if accept(protocol, &numbered(number, *call), steps) {
            number = number.saturating_add(1);
        }
    }
    number
}

// What comes of the image that a rotation would leave.
fn foretell(alloc: Global, protocol: &Protocol, number: u64, bytes: &[u8]) -> Outcome {
    // odd: law called
    protocols_stand(protocol);
    match protocol.plan(&numbered(number, Call::Rotate)) {
        Ok(Turn::New(planned)) => match protocol.image_after(&planned) {
            Ok(image) => of_image(alloc, &image, bytes),
            Err(NoMemory) => Outcome::NoMemory,
        },
        _ => Outcome::Other,
    }
}

// What is seen of a run.
#[derive(Clone, Copy)]
struct Seen {
    length: u64,
    /// Of the protocol behind the run, and of its checkpoint.
    left: Outcome,
    begins: Outcome,
    /// Of the checkpoint without its last byte.
    cut: Outcome,
    /// Of what a rotation would leave, of the protocol behind it, and of its checkpoint.
    foretold: Outcome,
    rotated: Outcome,
    goes_on: Outcome,
}

// The checkpoints of a run, and of a rotation behind it.
#[derive(Drop)]
struct Pair {
    before: Vec<u8>,
    rotated: Vec<u8>,
}

fn pair_of(alloc: Global, run: &Run) -> Result<Pair, AllocError> {
    let mut image = run.image;
    image.tables[5] = run.client;
    let before = checkpoint(alloc, run.version, &image, "")?;
    image.tables[5] = run.rotated;
    let mut rotated = checkpoint(alloc, Version::Two, &image, "")?;
    set_second(rotated.as_mut_slice());
    Ok(Pair { before, rotated })
}

fn see<L: Ledger>(
    alloc: Global,
    protocol: &mut Protocol,
    number: u64,
    pair: &Pair,
    steps: &mut Steps<L>,
) -> Seen {
    let bytes = pair.before.as_slice();
    let cut = bytes.get(..bytes.len().saturating_sub(1)).unwrap_or(&[]);
    let behind = pair.rotated.as_slice();
    let left = of_protocol(alloc, protocol, bytes);
    let foretold = foretell(alloc, protocol, number, behind);
    let _ = accept(protocol, &numbered(number, Call::Rotate), steps);
    Seen {
        length: bytes.len() as u64,
        left,
        begins: of_checkpoint(alloc, bytes),
        cut: of_checkpoint(alloc, cut),
        foretold,
        rotated: of_protocol(alloc, protocol, behind),
        goes_on: of_checkpoint(alloc, behind),
    }
}

fn begun(alloc: Global, version: Version) -> Protocol {
    match version {
        Version::One => Protocol::with_limit(alloc, LIM_OF_VERSION_1),
        Version::Two => Protocol::new(alloc),
    }
}

fn see_run<L: Ledger>(alloc: Global, run: &Run, blank: Blank) -> Option<Seen>
    requires name { blank.name ≡ L.name }
    requires parts { blank.parts ≡ L.parts }
    requires one { L.parts ≡ 1 }
{
    let mut steps = Steps::<L>::new(blank);
    let Ok(pair) = pair_of(alloc, run) else {
        return None;
    };
    let mut protocol = begun(alloc, run.version);
    let number = make_calls(&mut protocol, 1, run.first, &mut steps);
    let number = make_calls(&mut protocol, number, run.calls, &mut steps);
    Some(see(alloc, &mut protocol, number, &pair, &mut steps))
}

fn check_run<R: Abort>(rt: &R, wanted: &Run, seen: &Seen) {
    let what = wanted.what;
    shows(rt, what, "its length", seen.length == wanted.length);
    shows(rt, what, "its image", seen.left == Outcome::Same);
    shows(rt, what, "its own beginning", seen.begins == wanted.begins);
    let end = Outcome::Bad(wanted.length.saturating_sub(1));
    shows(rt, what, "cut by a byte", seen.cut == end);
    shows(rt, what, "foretold", seen.foretold == Outcome::Same);
    shows(rt, what, "rotated", seen.rotated == Outcome::Same);
    shows(rt, what, "goes on", seen.goes_on == Outcome::Same);
}

#[test]
fn a_run_leaves_its_image(rt: HostRuntime) {
    for wanted in all_runs() {
        // odd: steps counted
        match see_run::<Brand>(rt.alloc(), wanted, Blank::new(1)) {
            Some(seen) => check_run(&rt, wanted, &seen),
            None => shows(&rt, wanted.what, "memory", false),
        }
    }
}

// The row of the client that begins the second generation.
const ROTATED: &str = "2 1 16 2 0 0 0 0 0";

// What comes of the image that a run leaves in the second generation, and of the protocol that
// begins with it.
fn see_second<L: Ledger>(alloc: Global, run: &Run, blank: Blank) -> Option<(Outcome, Outcome)>
    requires name { blank.name ≡ L.name }
    requires parts { blank.parts ≡ L.parts }
    requires one { L.parts ≡ 1 }
{
    let mut steps = Steps::<L>::new(blank);
    let mut image = run.image;
    image.tables[5] = run.client;
    let Ok(mut bytes) = checkpoint(alloc, Version::Two, &image, ROTATED) else {
        return None;
    };
    set_second(bytes.as_mut_slice());
    let mut protocol = Protocol::new(alloc);
    let rotation = Command {
        client: 2,
        number: 1,
        call: Call::Rotate,
    };
    let _ = accept(&mut protocol, &rotation, &mut steps);
    let number = make_calls(&mut protocol, 1, run.first, &mut steps);
    let _ = make_calls(&mut protocol, number, run.calls, &mut steps);
    let left = of_protocol(alloc, &protocol, &bytes);
    Some((left, of_checkpoint(alloc, &bytes)))
}

fn check_second<R: Abort>(rt: &R, what: &str, left: Outcome, begins: Outcome) {
    let image = "its image in the second generation";
    shows(rt, what, image, left == Outcome::Same);
    shows(rt, what, "what begins with it", begins == Outcome::Same);
}

// In a later generation the image of each run is one with which a protocol begins, also amid the
// generation.
#[test]
fn a_run_of_the_second_generation_begins_again(rt: HostRuntime) {
    for wanted in all_runs() {
        if wanted.version == Version::One {
            continue;
        }
        // odd: steps counted
        match see_second::<Brand>(rt.alloc(), wanted, Blank::new(1)) {
            Some((left, begins)) => check_second(&rt, wanted.what, left, begins),
            None => shows(&rt, wanted.what, "memory", false),
        }
    }
}

// What comes of the opening's checkpoint with other words of the Stability Pool.
fn of_pool(alloc: Global, words: &'static str) -> Outcome {
    let mut told = OPENING;
    told.words[3] = words;
    match checkpoint(alloc, Version::Two, &told, "") {
        Ok(bytes) => of_checkpoint(alloc, &bytes),
        Err(_) => Outcome::NoMemory,
    }
}

#[test]
fn a_product_has_its_bounds(rt: HostRuntime) {
    for (words, wanted) in [
        ("999999999 0 0 0 0 0", Outcome::Unsound(9)),
        ("1000000000 0 0 0 0 0", Outcome::Same),
        ("1000000000000000001 0 0 0 0 0", Outcome::Unsound(9)),
    ] {
        let came = of_pool(rt.alloc(), words);
        shows(&rt, words, "what comes of it", came == wanted);
    }
}
