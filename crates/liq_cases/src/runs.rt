//! A run by both calls.

use crate::devices::{Devices, Outcome, are_serve, by_one_thread, by_protocol};
use liq_case_files::{Report, Side, put_words};
use liq_outside::Disk;
use std::alloc::{AllocError, Global};
use std::sync::Wait;
use std::thread::Threads;

/// A run by the call with threads. Where the other call leaves anything else over equal devices,
/// that is told; sessions have no other call.
pub fn run_by_both<R: Threads + Wait + Sync>(
    rt: &R,
    alloc: Global,
    told: &mut Report,
    devices: &Devices<'_>,
) -> Result<Outcome, AllocError> {
    told.runs = told.runs.saturating_add(1);
    let outcome = by_protocol(rt, alloc, devices)?;
    if !are_serve(devices.words) {
        let other = by_one_thread(alloc, devices)?;
        compare(told, &outcome, &other);
        compare_faults(told, &outcome, &other);
    }
    Ok(outcome)
}

/// A run by both calls of this word, whatever words the devices have.
pub fn run_word<R: Threads + Wait + Sync>(
    rt: &R,
    alloc: Global,
    told: &mut Report,
    word: &str,
    devices: &Devices<'_>,
) -> Result<Outcome, AllocError> {
    let mut words = Vec::new(alloc);
    put_words(alloc, &mut words, &[word])?;
    let devices = Devices {
        words: &words,
        ..*devices
    };
    run_by_both(rt, alloc, told, &devices)
}

/// Tells where status, output, what is unread and both disks differ.
fn compare(told: &mut Report, outcome: &Outcome, other: &Outcome) {
    told.number("status without threads", outcome.status(), other.status());
    told.bytes("output without threads", outcome.output(), other.output());
    told.bytes("unread without threads", outcome.unread(), other.unread());
    told.bytes(
        "left disk without threads",
        outcome.held(Side::Left),
        other.held(Side::Left),
    );
    told.bytes(
        "right disk without threads",
        outcome.held(Side::Right),
        other.held(Side::Right),
    );
}

/// Tells where other calls of the devices failed.
fn compare_faults(told: &mut Report, outcome: &Outcome, other: &Outcome) {
    told.number(
        "source faults without threads",
        outcome.source.faults(),
        other.source.faults(),
    );
    told.number(
        "sink faults without threads",
        outcome.sink.faults,
        other.sink.faults,
    );
    told.number(
        "left faults without threads",
        outcome.ended.left.faults(),
        other.ended.left.faults(),
    );
    told.number(
        "right faults without threads",
        outcome.ended.right.faults(),
        other.ended.right.faults(),
    );
}
