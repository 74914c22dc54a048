//! A run as it is written, made and compared.

use crate::devices::{Devices, Outcome, are_serve};
use crate::disks::Disks;
use crate::facts::check_facts;
use crate::forged::check_forged;
use crate::runs::run_by_both;
use crate::sessions::check_served;
use crate::stage::Stage;
use crate::stops::sweep_stops;
use crate::sweeps::{sweep_cuts, sweep_disk, sweep_sink, sweep_source};
use liq_case_files::{Asked, At, Lines, Report};
use std::alloc::AllocError;
use std::sync::Wait;
use std::thread::Threads;

/// Makes a run's sweeps, and then the run for each of its sizes. The disks become those that the
/// last size leaves.
pub fn perform<R: Threads + Wait + Sync>(
    rt: &R,
    stage: &Stage<'_>,
    told: &mut Report,
    disks: &mut Disks,
) -> Result<(), AllocError> {
    for asked in &stage.run.sweeps {
        sweep(rt, stage, told, *asked)?;
    }
    told.replies = told.replies.saturating_add(stage.run.replies());
    for read in &stage.run.reads {
        for write in &stage.run.writes {
            make(rt, stage, told, disks, *read, *write)?;
        }
    }
    Ok(())
}

fn sweep<R: Threads + Wait + Sync>(
    rt: &R,
    stage: &Stage<'_>,
    told: &mut Report,
    asked: Asked,
) -> Result<(), AllocError> {
    match asked {
        Asked::Source => sweep_source(rt, stage, told),
        Asked::Sink(last) => sweep_sink(rt, stage, told, last),
        Asked::Disk(side, first, last) => sweep_disk(rt, stage, told, side, first, last),
        Asked::Cuts(first, last) => sweep_cuts(rt, stage, told, first, last),
        Asked::Stops(first, last) => sweep_stops(rt, stage, told, first, last),
        Asked::Forged(forged) => check_forged(rt, stage, told, forged),
    }
}

/// Makes the run at a read and a write of these sizes, and takes the disks that it leaves.
fn make<R: Threads + Wait + Sync>(
    rt: &R,
    stage: &Stage<'_>,
    told: &mut Report,
    disks: &mut Disks,
    read: u64,
    write: u64,
) -> Result<(), AllocError> {
    let mut outcome = make_once(rt, stage, told, read, write)?;
    check_facts(told, stage.run, stage.start, &outcome);
    disks.take(&mut outcome);
    Ok(())
}

/// What a run at a read and a write of these sizes leaves, once it is compared with what stands in
/// the file.
pub fn make_once<R: Threads + Wait + Sync>(
    rt: &R,
    stage: &Stage<'_>,
    told: &mut Report,
    read: u64,
    write: u64,
) -> Result<Outcome, AllocError> {
    told.at = At::line(stage.run.line);
    let devices = Devices {
        read,
        write,
        ..stage.devices()
    };
    let outcome = run_by_both(rt, stage.alloc, told, &devices)?;
    check(rt, stage, told, &outcome)?;
    Ok(outcome)
}

/// Tells where a run's status or its output is another one.
pub fn check<R: Threads + Wait + Sync>(
    rt: &R,
    stage: &Stage<'_>,
    told: &mut Report,
    outcome: &Outcome,
) -> Result<(), AllocError> {
    let run = stage.run;
    let status = run.status.unwrap_or(0);
    told.number("status", u64::from(status), outcome.status());
    if status == 0 && are_serve(&run.words) {
        check_served(rt, stage, told, outcome)
    } else {
        check_output(told, &run.lines, outcome.output());
        Ok(())
    }
}

/// Tells the first line that went out otherwise.
fn check_output(told: &mut Report, lines: &Lines, came: &[u8]) {
    if came != lines.output.as_slice() {
        let difference = lines.difference(came);
        told.at.line = difference.line.unwrap_or(told.at.line);
        if difference.wanted == difference.came {
            // Only the line end is another one, or what stands behind it.
            told.bytes("output", &lines.output, came);
        } else {
            told.bytes("output", difference.wanted, difference.came);
        }
    }
}
