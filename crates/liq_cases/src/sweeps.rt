//! Runs that are made again for each place where something may fail.

use crate::devices::{Devices, Outcome, are_serve};
use crate::performing::{check, make_once};
use crate::runs::{run_by_both, run_word};
use crate::stage::Stage;
use liq_case_files::{At, Report, Side};
use std::alloc::AllocError;
use std::sync::Wait;
use std::thread::Threads;

/// The last line where a read fails.
const READ_FAULT: &[u8] = b"read fault\n";

/// The last line where a call of a disk fails.
pub const DISK_FAULT: &[u8] = b"disk fault\n";

/// How many choices a crash has.
pub const CRASHES: u64 = 8;

/// No call has this number.
const NONE: u64 = u64::MAX;

/// A call of a disk that fails.
#[derive(Clone, Copy)]
struct DiskCall {
    side: Side,
    call: u64,
}

/// Each read fails in turn, and then one that is never made.
pub fn sweep_source<R: Threads + Wait + Sync>(
    rt: &R,
    stage: &Stage<'_>,
    told: &mut Report,
) -> Result<(), AllocError> {
    for read in &stage.run.reads {
        sweep_reads(rt, stage, told, *read)?;
    }
    Ok(())
}

/// The same at reads of this size.
fn sweep_reads<R: Threads + Wait + Sync>(
    rt: &R,
    stage: &Stage<'_>,
    told: &mut Report,
    read: u64,
) -> Result<(), AllocError> {
    let bytes = stage.input().len() as u64;
    // The last read finds the end.
    let reads = bytes.div_ceil(read.max(1)).saturating_add(1);
    for call in 0..reads {
        let outcome = fail_read(rt, stage, told, read, call)?;
        check_failed_read(stage, told, read.saturating_mul(call), &outcome);
    }
    let outcome = fail_read(rt, stage, told, read, reads)?;
    check(rt, stage, told, &outcome)
}

/// The run where a read fails.
fn fail_read<R: Threads + Wait + Sync>(
    rt: &R,
    stage: &Stage<'_>,
    told: &mut Report,
    read: u64,
    call: u64,
) -> Result<Outcome, AllocError> {
    told.at = At::call(stage.run.line, "read", call);
    let devices = Devices {
        read,
        source_fails: &[call],
        ..stage.unfailing()
    };
    run_by_both(rt, stage.alloc, told, &devices)
}

/// Each line is answered that had ended among so many bytes, which came before the read that
/// failed.
fn check_failed_read(stage: &Stage<'_>, told: &mut Report, bytes: u64, outcome: &Outcome) {
    let answered = stage.run.lines.answered(answering(stage, bytes as usize));
    let output = outcome.output();
    let (replies, last) = output.split_at(answered.len().min(output.len()));
    told.number("status", 3, outcome.status());
    told.bytes("replies", answered, replies);
    told.bytes("last line", READ_FAULT, last);
}

/// How many of so many bytes bring an answer where a device fails: none do for sessions.
fn answering(stage: &Stage<'_>, bytes: usize) -> usize {
    if are_serve(&stage.run.words) {
        0
    } else {
        bytes
    }
}

/// Of the input only the first bytes come in, so many and one more, up to so many. The same goes
/// out.
pub fn sweep_cuts<R: Threads + Wait + Sync>(
    rt: &R,
    stage: &Stage<'_>,
    told: &mut Report,
    first: u64,
    last: u64,
) -> Result<(), AllocError> {
    for read in &stage.run.reads {
        for bytes in first..last.saturating_add(1) {
            cut_input(rt, stage, told, *read, bytes)?;
        }
    }
    Ok(())
}

/// The run where so many bytes come in.
fn cut_input<R: Threads + Wait + Sync>(
    rt: &R,
    stage: &Stage<'_>,
    told: &mut Report,
    read: u64,
    bytes: u64,
) -> Result<(), AllocError> {
    told.at = At::front(stage.run.line, bytes);
    let devices = stage.unfailing();
    let devices = Devices {
        read,
        input: devices.input.get(..bytes as usize).unwrap_or(&[]),
        ..devices
    };
    let outcome = run_by_both(rt, stage.alloc, told, &devices)?;
    check(rt, stage, told, &outcome)
}

/// Each of the sink's last so many calls fails in turn.
pub fn sweep_sink<R: Threads + Wait + Sync>(
    rt: &R,
    stage: &Stage<'_>,
    told: &mut Report,
    last: u64,
) -> Result<(), AllocError> {
    for read in &stage.run.reads {
        for write in &stage.run.writes {
            sweep_writes(rt, stage, told, *read, *write, last)?;
        }
    }
    Ok(())
}

/// Each of the last so many calls fails in turn that took bytes in the whole run.
fn sweep_writes<R: Threads + Wait + Sync>(
    rt: &R,
    stage: &Stage<'_>,
    told: &mut Report,
    read: u64,
    write: u64,
    last: u64,
) -> Result<(), AllocError> {
    let whole = make_once(rt, stage, told, read, write)?;
    let calls = whole.sink.taken.len();
    for call in calls.saturating_sub(last as usize)..calls {
        let outcome = fail_write(rt, stage, told, read, write, call as u64)?;
        check_failed_write(stage, told, &whole, call, &outcome);
    }
    Ok(())
}

/// The run where a write fails.
fn fail_write<R: Threads + Wait + Sync>(
    rt: &R,
    stage: &Stage<'_>,
    told: &mut Report,
    read: u64,
    write: u64,
    call: u64,
) -> Result<Outcome, AllocError> {
    told.at = At::call(stage.run.line, "write", call);
    let devices = Devices {
        read,
        write,
        sink_fails: &[call],
        ..stage.devices()
    };
    run_by_both(rt, stage.alloc, told, &devices)
}

/// What the writes before it took is there, and the status says whether replies are cut.
fn check_failed_write(
    stage: &Stage<'_>,
    told: &mut Report,
    whole: &Outcome,
    call: usize,
    outcome: &Outcome,
) {
    let taken = whole.sink.taken_by(call);
    let wanted = stage.run.status.unwrap_or(0);
    let cut = taken.len() < replies(wanted, whole.output());
    let status = if cut { 4 } else { wanted };
    told.bytes("output", taken, outcome.output());
    told.number("status", u64::from(status), outcome.status());
}

/// How many bytes of an output are replies: a last line behind them says why a run ended, where it
/// did not end well.
fn replies(status: u8, output: &[u8]) -> usize {
    if status == 0 {
        return output.len();
    }
    let mut replies = 0;
    for (place, byte) in output.iter().enumerate() {
        let behind = place.saturating_add(1);
        // The last line's own end is no end of a reply.
        if *byte == b'\n' && behind < output.len() {
            replies = behind;
        }
    }
    replies
}

/// These calls of a disk fail in turn: a beginning of the replies goes out, and what was answered
/// is found after each crash. Then one behind the last of them fails, which is never made.
pub fn sweep_disk<R: Threads + Wait + Sync>(
    rt: &R,
    stage: &Stage<'_>,
    told: &mut Report,
    side: Side,
    first: u64,
    last: u64,
) -> Result<(), AllocError> {
    let behind = last.saturating_add(1);
    for call in first..behind {
        check_failed_call(rt, stage, told, DiskCall { side, call })?;
    }
    let unmade = DiskCall { side, call: behind };
    let outcome = fail_call(rt, stage, told, unmade)?;
    check(rt, stage, told, &outcome)
}

/// The run where a call of a disk fails.
fn fail_call<R: Threads + Wait + Sync>(
    rt: &R,
    stage: &Stage<'_>,
    told: &mut Report,
    failing: DiskCall,
) -> Result<Outcome, AllocError> {
    let DiskCall { side, call } = failing;
    told.at = At::call(stage.run.line, "call of a disk", call);
    let (left, right) = match side {
        Side::Left => (call, NONE),
        Side::Right => (NONE, call),
    };
    let devices = Devices {
        left_fails: &[left],
        right_fails: &[right],
        ..stage.unfailing()
    };
    run_by_both(rt, stage.alloc, told, &devices)
}

/// Where a call of a disk fails, a beginning of the replies goes out, and is found after each
/// crash.
fn check_failed_call<R: Threads + Wait + Sync>(
    rt: &R,
    stage: &Stage<'_>,
    told: &mut Report,
    failing: DiskCall,
) -> Result<(), AllocError> {
    let outcome = fail_call(rt, stage, told, failing)?;
    let answered = check_replies(stage, told, &outcome);
    if are_serve(&stage.run.words) {
        return Ok(());
    }
    check_crashes(rt, stage, told, failing, answered)
}

/// How many lines are answered where a call of a disk fails.
pub fn check_replies(stage: &Stage<'_>, told: &mut Report, outcome: &Outcome) -> usize {
    let output = outcome.output();
    let (replies, last) = output.split_at(output.len().saturating_sub(DISK_FAULT.len()));
    let bytes = answering(stage, replies.len());
    let (lines, answered) = stage.run.lines.answered_by(bytes);
    told.number("status", 5, outcome.status());
    told.bytes("replies", answered, replies);
    told.bytes("last line", DISK_FAULT, last);
    lines
}

/// After each crash what `state` tells is what it tells after so many lines or after one more.
fn check_crashes<R: Threads + Wait + Sync>(
    rt: &R,
    stage: &Stage<'_>,
    told: &mut Report,
    failing: DiskCall,
    lines: usize,
) -> Result<(), AllocError> {
    let before = state_after(rt, stage, told, lines)?;
    let after = state_after(rt, stage, told, lines.saturating_add(1))?;
    for choice in 0..CRASHES {
        let found = state_after_crash(rt, stage, told, failing, choice)?;
        check_state(told, &before, &after, &found);
    }
    Ok(())
}

/// Tells where a state after a crash is neither of the two that may be.
fn check_state(told: &mut Report, before: &[u8], after: &[u8], found: &[u8]) {
    if found != after {
        told.bytes("state after a crash", before, found);
    }
}

/// What `state` tells after the failing run and a crash of this choice on the disk that failed.
fn state_after_crash<R: Threads + Wait + Sync>(
    rt: &R,
    stage: &Stage<'_>,
    told: &mut Report,
    failing: DiskCall,
    choice: u64,
) -> Result<Vec<u8>, AllocError> {
    let mut outcome = fail_call(rt, stage, told, failing)?;
    outcome.crash(stage.alloc, failing.side, choice);
    state_over(rt, stage, told, &outcome)
}

/// What `state` tells after the first so many lines.
fn state_after<R: Threads + Wait + Sync>(
    rt: &R,
    stage: &Stage<'_>,
    told: &mut Report,
    lines: usize,
) -> Result<Vec<u8>, AllocError> {
    let devices = Devices {
        input: stage.run.lines.input_of(lines),
        ..stage.unfailing()
    };
    let outcome = run_by_both(rt, stage.alloc, told, &devices)?;
    state_over(rt, stage, told, &outcome)
}

/// What `state` tells over the disks that a run left.
fn state_over<R: Threads + Wait + Sync>(
    rt: &R,
    stage: &Stage<'_>,
    told: &mut Report,
    left_behind: &Outcome,
) -> Result<Vec<u8>, AllocError> {
    let devices = Devices {
        left: left_behind.held(Side::Left),
        right: left_behind.held(Side::Right),
        ..stage.unfailing()
    };
    let outcome = run_word(rt, stage.alloc, told, "state", &devices)?;
    outcome.output().to_vec(stage.alloc)
}
