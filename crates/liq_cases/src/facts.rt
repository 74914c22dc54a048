//! Facts of what a run leaves, tested.

use crate::devices::Outcome;
use liq_case_files::{At, Held, Report, Run, Says, Start};

/// Tells each fact of a run that does not hold, and counts those that it tests.
pub fn check_facts(told: &mut Report, run: &Run, start: &Start, outcome: &Outcome) {
    for fact in &run.facts {
        told.facts = told.facts.saturating_add(1);
        told.at = At::line(fact.line);
        check_fact(told, &fact.says, start, outcome);
    }
}

fn check_fact(told: &mut Report, says: &Says, start: &Start, outcome: &Outcome) {
    match says {
        Says::Disk(side, held) => check_held(told, held, start.held(*side), outcome.held(*side)),
        Says::Unread(count) => told.number("unread", *count, outcome.unread().len() as u64),
        Says::SourceFaults(count) => {
            told.number("source faults", *count, outcome.source.faults())
        }
        Says::SinkFaults(count) => told.number("sink faults", *count, outcome.sink.faults),
    }
}

fn check_held(told: &mut Report, held: &Held, before: &[u8], bytes: &[u8]) {
    match held {
        Held::Count(count) => told.number("bytes of the disk", *count, bytes.len() as u64),
        Held::Begins(first) => {
            told.bytes(
                "first bytes",
                first,
                bytes.get(..first.len()).unwrap_or(bytes),
            )
        }
        Held::Ends(last) => {
            let start = bytes.len().saturating_sub(last.len());
            told.bytes("last bytes", last, bytes.get(start..).unwrap_or(bytes))
        }
        Held::Is(all) => told.bytes("disk", all, bytes),
        Held::AsBefore => told.bytes("disk", before, bytes),
    }
}
