//! Runs whose disks fail from a call on, crashed and opened again: all that was answered is found,
//! and one line more at most. Then that opening is stopped too.

use crate::devices::{Devices, are_serve, by_protocol};
use crate::performing::check;
use crate::runs::run_by_both;
use crate::stage::Stage;
use crate::sweeps::{CRASHES, DISK_FAULT, check_replies};
use liq_case_files::{At, Lines, Report, Start, Stop, put_words};
use liq_outside::Disk;
use std::alloc::{AllocError, Global};
use std::sync::Wait;
use std::thread::Threads;

/// More calls than a disk takes in a run that is stopped.
const CALLS: u64 = 200;

/// After how many of the first lines what is found may stand: these, and all between.
#[derive(Clone, Copy)]
struct Between {
    first: usize,
    last: usize,
}

/// What a crash left on the disks, and what may be found on them.
#[derive(Clone, Copy)]
struct Crashed<'a> {
    held: &'a Start,
    between: Between,
}

/// The stops of a run.
struct Stops<'a> {
    stage: &'a Stage<'a>,
    /// The words of the runs that ask what is found.
    asking: Vec<String>,
    /// The numbers of all calls.
    calls: Vec<u64>,
    /// What the disks held of which an opening was stopped, and what might be found at last.
    opened: Vec<(Start, usize)>,
    nothing: Lines,
}

// odd: drop written out
impl Drop for Stops<'_> {
    fn drop(self) {
        let Stops {
            stage: _,
            asking: _,
            calls: _,
            opened: _,
            nothing: _,
        } = self;
    }
}

impl<'a> Stops<'a> {
    /// No opening is stopped yet.
    fn new(stage: &'a Stage<'a>) -> Result<Stops<'a>, AllocError> {
        let mut asking = Vec::new(stage.alloc);
        put_words(stage.alloc, &mut asking, &["run"])?;
        let mut calls = Vec::new(stage.alloc);
        for call in 0..CALLS {
            calls.push(call)?;
        }
        Ok(Stops {
            stage,
            asking,
            calls,
            opened: Vec::new(stage.alloc),
            nothing: Lines::new(stage.alloc),
        })
    }

    /// The numbers of the calls from this one on.
    fn since(&self, call: u64) -> &[u64] {
        self.calls.get(call as usize..).unwrap_or(&[])
    }

    /// What the run meets where the disks fail from these calls on.
    fn stopping(&self, stop: Stop) -> Devices<'_> {
        Devices {
            left_fails: self.since(stop.left),
            right_fails: self.since(stop.right),
            ..self.stage.unfailing()
        }
    }

    /// What must be found after so many lines; nothing after more than there are.
    fn found(&self, lines: usize) -> &Lines {
        self.stage.run.found.get(lines).unwrap_or(&self.nothing)
    }

    /// What a run meets that asks on these disks what is found after so many lines, where they fail
    /// from these calls on.
    fn asking<'b>(&'b self, lines: usize, held: &'b Start, stop: Stop) -> Devices<'b> {
        Devices {
            words: &self.asking,
            input: &self.found(lines).input,
            left: &held.left,
            right: &held.right,
            ..self.stopping(stop)
        }
    }

    /// Whether an opening of just these disks was stopped, behind which no more might be found.
    fn has_opened(&self, held: &Start, last: usize) -> bool {
        for (earlier, found) in &self.opened {
            if *found == last && is_same(earlier, held) {
                return true;
            }
        }
        false
    }

    /// All lines are carried out.
    fn all(&self) -> Between {
        let all = self.stage.run.found.len().saturating_sub(1);
        Between {
            first: all,
            last: all,
        }
    }

    /// So many lines are answered, and one more may be carried out. How many sessions were answered
    /// is not told.
    fn answered(&self, lines: usize) -> Between {
        let all = self.all();
        if are_serve(&self.stage.run.words) {
            Between { first: 0, ..all }
        } else {
            Between {
                first: lines,
                last: lines.saturating_add(1).min(all.last),
            }
        }
    }
}

/// Whether disks hold the same.
fn is_same(one: &Start, other: &Start) -> bool {
    one.left == other.left && one.right == other.right
}

/// Both disks fail from calls on, each pair of these in turn and of those behind the last ones,
/// which are never made.
pub fn sweep_stops<R: Threads + Wait + Sync>(
    rt: &R,
    stage: &Stage<'_>,
    told: &mut Report,
    first: Stop,
    last: Stop,
) -> Result<(), AllocError> {
    if stage.run.found.len() != stage.run.lines.count().saturating_add(1) {
        told.misread(
            stage.run.line,
            "what is found after none of the lines, and after each",
        );
        return Ok(());
    }
    let mut stops = Stops::new(stage)?;
    for left in first.left..last.left.saturating_add(2) {
        for right in first.right..last.right.saturating_add(2) {
            let unmade = left > last.left && right > last.right;
            check_stop(rt, &mut stops, told, Stop { left, right }, unmade)?;
        }
    }
    Ok(())
}

/// A beginning of the replies goes out, or all where no call fails; and what is found after each
/// crash stands behind them.
fn check_stop<R: Threads + Wait + Sync>(
    rt: &R,
    stops: &mut Stops<'_>,
    told: &mut Report,
    stop: Stop,
    unmade: bool,
) -> Result<(), AllocError> {
    let stage = stops.stage;
    told.at = At::stop(stage.run.line, stop);
    let outcome = run_by_both(rt, stage.alloc, told, &stops.stopping(stop))?;
    let between = if unmade {
        check(rt, stage, told, &outcome)?;
        stops.all()
    } else {
        stops.answered(check_replies(stage, told, &outcome))
    };
    told.at = At::stop(stage.run.line, stop);
    check_crashes(rt, stops, told, stop, between)
}

/// What the crashes of a run leave, each way of the one disk beside each of the other, and each
/// pair once.
fn crashes<R: Threads + Wait + Sync>(
    rt: &R,
    alloc: Global,
    devices: &Devices<'_>,
) -> Result<Vec<Start>, AllocError> {
    let mut lefts = Vec::new(alloc);
    let mut rights = Vec::new(alloc);
    for choice in 0..CRASHES {
        let mut outcome = by_protocol(rt, alloc, devices)?;
        let held = outcome.crash_both(alloc, choice)?;
        add(alloc, &mut lefts, &held.left)?;
        add(alloc, &mut rights, &held.right)?;
    }
    pairs(alloc, &lefts, &rights)
}

/// Adds what a disk holds, where it is not among these.
fn add(alloc: Global, among: &mut Vec<Vec<u8>>, held: &[u8]) -> Result<(), AllocError> {
    for one in among.iter() {
        if one.as_slice() == held {
            return Ok(());
        }
    }
    among.push(held.to_vec(alloc)?)?;
    Ok(())
}

/// Each of these left disks beside each of these right ones.
fn pairs(alloc: Global, lefts: &[Vec<u8>], rights: &[Vec<u8>]) -> Result<Vec<Start>, AllocError> {
    let mut pairs = Vec::new(alloc);
    for left in lefts {
        for right in rights {
            pairs.push(Start {
                left: left.to_vec(alloc)?,
                right: right.to_vec(alloc)?,
            })?;
        }
    }
    Ok(pairs)
}

/// Crashes both disks in each way, up to the first after which something else is found. An opening
/// of what is left is stopped too, if none of the same was.
fn check_crashes<R: Threads + Wait + Sync>(
    rt: &R,
    stops: &mut Stops<'_>,
    told: &mut Report,
    stop: Stop,
    between: Between,
) -> Result<(), AllocError> {
    for held in crashes(rt, stops.stage.alloc, &stops.stopping(stop))? {
        let crashed = Crashed {
            held: &held,
            between,
        };
        let Some(first) = find(rt, stops, told, crashed)? else {
            return Ok(());
        };
        if !stops.has_opened(&held, between.last) {
            let between = Between { first, ..between };
            stop_opening(rt, stops, told, Crashed { between, ..crashed })?;
            stops.opened.push((held, between.last))?;
        }
    }
    Ok(())
}

/// After how many lines what these disks hold is found, of what may be. Where it is something else,
/// that is told.
fn find<'a, R: Threads + Wait + Sync>(
    rt: &R,
    stops: &'a Stops<'_>,
    told: &mut Report,
    crashed: Crashed<'a>,
) -> Result<Option<usize>, AllocError> {
    let Between { first, last } = crashed.between;
    for lines in first..last.saturating_add(1) {
        let devices = stops.asking(lines, crashed.held, Stop::NEVER);
        let outcome = run_by_both(rt, stops.stage.alloc, told, &devices)?;
        if outcome.status() == 0 && outcome.output() == stops.found(lines).output.as_slice() {
            return Ok(Some(lines));
        }
    }
    tell_found(rt, stops, told, crashed)?;
    Ok(None)
}

/// Tells what is found on these disks where it is nothing that may be.
fn tell_found<'a, R: Threads + Wait + Sync>(
    rt: &R,
    stops: &'a Stops<'_>,
    told: &mut Report,
    crashed: Crashed<'a>,
) -> Result<(), AllocError> {
    let lines = crashed.between.first;
    let devices = stops.asking(lines, crashed.held, Stop::NEVER);
    let outcome = run_by_both(rt, stops.stage.alloc, told, &devices)?;
    told.bytes(
        "found after a crash",
        &stops.found(lines).output,
        outcome.output(),
    );
    Ok(())
}

/// An opening of these disks fails from each call on of the left one, and then of the right one.
fn stop_opening<R: Threads + Wait + Sync>(
    rt: &R,
    stops: &Stops<'_>,
    told: &mut Report,
    crashed: Crashed<'_>,
) -> Result<(), AllocError> {
    for left in 0..CALLS {
        let stop = Stop {
            left,
            ..Stop::NEVER
        };
        if !is_stopped(rt, stops, told, crashed, stop)? {
            break;
        }
    }
    for right in 0..CALLS {
        let stop = Stop {
            right,
            ..Stop::NEVER
        };
        if !is_stopped(rt, stops, told, crashed, stop)? {
            break;
        }
    }
    Ok(())
}

/// Whether an opening is stopped where these disks fail from these calls on. If it is, just that is
/// told, and no less than was found before is found on them after each crash.
fn is_stopped<'a, R: Threads + Wait + Sync>(
    rt: &R,
    stops: &'a Stops<'_>,
    told: &mut Report,
    crashed: Crashed<'a>,
    stop: Stop,
) -> Result<bool, AllocError> {
    let devices = stops.asking(crashed.between.first, crashed.held, stop);
    let outcome = run_by_both(rt, stops.stage.alloc, told, &devices)?;
    if outcome.ended.left.faults() == 0 && outcome.ended.right.faults() == 0 {
        return Ok(false);
    }
    told.number("status of a second opening", 5, outcome.status());
    told.bytes("output of a second opening", DISK_FAULT, outcome.output());
    check_second_crashes(rt, stops, told, crashed, &devices)?;
    Ok(true)
}

/// Crashes both disks in each way after an opening that met these devices and was stopped. What is
/// as before need not be opened again.
fn check_second_crashes<'a, R: Threads + Wait + Sync>(
    rt: &R,
    stops: &'a Stops<'_>,
    told: &mut Report,
    crashed: Crashed<'a>,
    devices: &Devices<'_>,
) -> Result<(), AllocError> {
    for held in &crashes(rt, stops.stage.alloc, devices)? {
        let left_behind = Crashed { held, ..crashed };
        if !is_same(held, crashed.held) && find(rt, stops, told, left_behind)?.is_none() {
            return Ok(());
        }
    }
    Ok(())
}
