//! As many accepted commands as a journal takes, and one more.

ghost use Rattle.std.specs.Prelude.{◌≡◌};

use crate::tests::checks::shows;
use liq_core::{PlanFault, Protocol, Turn};
use liq_types::{Call, Command, Done, Hint, NoMemory, Query, Refusal, Reply, Steps};
use std::alloc::Global;
use std::marker::Brand;
use std::sync::ledger::{Blank, Ledger};

const RECORDS: u64 = 1_000_000;

/// A price under client 1's number.
fn price(number: u64, price: u64) -> Command {
    Command {
        client: 1,
        number,
        call: Call::Price(price),
    }
}

/// What comes of a command.
#[derive(Clone, Copy, PartialEq, Eq)]
enum Outcome {
    /// It is accepted, as a price.
    Price,
    /// The journal has a million records.
    Full,
    /// The price 1 is out of its range.
    Range,
    Other,
}

fn of_done(done: &Done) -> Outcome {
    if done.kind == 1 {
        Outcome::Price
    } else {
        Outcome::Other
    }
}

fn of_fault(fault: &PlanFault) -> Outcome {
    match fault {
        PlanFault::No(Refusal::JournalFull { records: RECORDS }) => Outcome::Full,
        PlanFault::No(Refusal::PriceRange { price: 1 }) => Outcome::Range,
        _ => Outcome::Other,
    }
}

/// Plans a command, makes room for it and applies it, or says why it is not planned.
fn accept<L: Ledger>(protocol: &mut Protocol, command: &Command, steps: &mut Steps<L>) -> Outcome {
    let planned = match protocol.plan(command) {
        Ok(Turn::New(planned)) => planned,
        Ok(Turn::Again(done)) => return of_done(&done),
        Err(fault) => return of_fault(&fault),
    };
    match protocol.reserve(&planned) {
        Ok(()) => of_done(&protocol.apply(planned, &Hint::NONE, steps)),
        Err(NoMemory) => Outcome::Other,
    }
}

/// How many of these commands are accepted as prices, in turn, up to the first that is not.
fn accept_all<L: Ledger>(protocol: &mut Protocol, steps: &mut Steps<L>) -> u64 {
    for number in 1..RECORDS + 1 {
        let outcome = accept(protocol, &price(number, 100_000_000 + number), steps);
        if outcome != Outcome::Price {
            return number - 1;
        }
    }
    RECORDS
}

/// What is seen of a full journal.
#[derive(Clone, Copy)]
struct Seen {
    /// The generation, accepted commands, and records.
    counts: [u64; 3],
    /// Of one command more, of a price out of its range, and of the last number again.
    outcomes: [Outcome; 3],
    told: bool,
}

fn see<L: Ledger>(protocol: &mut Protocol, steps: &mut Steps<L>) -> Seen {
    let generation = protocol.generation();
    let accepted = accept_all(protocol, steps);
    let records = protocol.records();
    let outcomes = [
        accept(protocol, &price(RECORDS + 1, 100_000_000), steps),
        accept(protocol, &price(RECORDS + 1, 1), steps),
        accept(protocol, &price(RECORDS, 1), steps),
    ];
    Seen {
        counts: [generation, accepted, records],
        outcomes,
        told: matches!(protocol.query(&Query::System), Reply::Told(_)),
    }
}

fn see_full<L: Ledger>(alloc: Global, blank: Blank) -> Seen
    requires name { blank.name ≡ L.name }
    requires parts { blank.parts ≡ L.parts }
    requires one { L.parts ≡ 1 }
{
    let mut steps = Steps::<L>::new(blank);
    let mut protocol = Protocol::new(alloc);
    see(&mut protocol, &mut steps)
}

#[test]
fn full_journal(rt: HostRuntime) {
    // odd: steps counted
    let seen = see_full::<Brand>(rt.alloc(), Blank::new(1));
    let is_full = seen.told && seen.counts == [1, RECORDS, RECORDS];
    shows(&rt, "each is accepted, and a query answered", is_full);
    // A price out of range is told before that the journal is full, and the number that came last
    // has its kept reply.
    let expected = [Outcome::Full, Outcome::Range, Outcome::Price];
    shows(&rt, "one more", seen.outcomes == expected);
}
