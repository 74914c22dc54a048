//! The settings of a run.

use crate::facts::{Fact, Says, read_held};
use crate::forged::Forged;
use crate::misread::{Misread, byte, number, put_numbers};
use crate::run::{Asked, Failing, Run, Stop, put_words, side_of};
use std::alloc::Global;

/// Takes the words of a setting, which stands in this line.
pub fn set(alloc: Global, run: &mut Run, line: usize, words: &[&str]) -> Result<(), Misread> {
    let [what, rest @ ..] = words else {
        return Err(Misread::NotUnderstood);
    };
    match *what {
        "words" => set_words(alloc, run, rest),
        "status" => set_status(run, rest),
        "reads" => put_numbers(&mut run.reads, rest),
        "writes" => put_numbers(&mut run.writes, rest),
        "found" => begin_found(alloc, run, rest),
        "input" => set_input(run, rest),
        "legal" => set_legal(run, rest),
        device => set_of_device(alloc, run, line, device, rest),
    }
}

/// Takes the words of the command line in place of those before.
fn set_words(alloc: Global, run: &mut Run, words: &[&str]) -> Result<(), Misread> {
    run.words.clear();
    put_words(alloc, &mut run.words, words)?;
    Ok(())
}

/// Takes the status that must come, which is written once.
fn set_status(run: &mut Run, words: &[&str]) -> Result<(), Misread> {
    let [status] = words else {
        return Err(Misread::NotUnderstood);
    };
    if run.status.is_some() {
        return Err(Misread::NotUnderstood);
    }
    run.status = Some(byte(status)?);
    Ok(())
}

/// Begins what is found after so many lines.
fn begin_found(alloc: Global, run: &mut Run, words: &[&str]) -> Result<(), Misread> {
    match words {
        [lines] => run.begin_found(alloc, number(lines)?),
        _ => Err(Misread::NotUnderstood),
    }
}

/// Takes that replies may be those along any legal history.
fn set_legal(run: &mut Run, words: &[&str]) -> Result<(), Misread> {
    if !words.is_empty() {
        return Err(Misread::NotUnderstood);
    }
    run.legal = true;
    Ok(())
}

/// Takes the disk whose bytes come in, or how many of the first ones do.
fn set_input(run: &mut Run, words: &[&str]) -> Result<(), Misread> {
    match words {
        [side] => {
            run.input = Some(side_of(side)?);
            Ok(())
        }
        ["cuts", first, last] => put_sweep(run, cuts(first, last)?),
        _ => Err(Misread::NotUnderstood),
    }
}

/// How many of the first bytes come in.
fn cuts(first: &str, last: &str) -> Result<Asked, Misread> {
    Ok(Asked::Cuts(number(first)?, number(last)?))
}

/// Takes a device's calls that fail, a sweep over them, or a fact of it.
fn set_of_device(
    alloc: Global,
    run: &mut Run,
    line: usize,
    device: &str,
    words: &[&str],
) -> Result<(), Misread> {
    let [what, calls @ ..] = words else {
        return Err(Misread::NotUnderstood);
    };
    match *what {
        "fails" => put_numbers(failing(&mut run.failing, device)?, calls),
        "sweep" => put_sweep(run, sweep(device, calls)?),
        "forged" => put_sweep(run, forged(device, calls)?),
        _ => put_fact(run, line, says(alloc, device, words)?),
    }
}

fn put_sweep(run: &mut Run, asked: Asked) -> Result<(), Misread> {
    run.sweeps.push(asked)?;
    Ok(())
}

fn put_fact(run: &mut Run, line: usize, says: Says) -> Result<(), Misread> {
    run.facts.push(Fact { line, says })?;
    Ok(())
}

/// The calls of a device that fail.
fn failing<'a>(failing: &'a mut Failing, device: &str) -> Result<&'a mut Vec<u64>, Misread> {
    match device {
        "source" => Ok(&mut failing.source),
        "sink" => Ok(&mut failing.sink),
        "left" => Ok(&mut failing.left),
        "right" => Ok(&mut failing.right),
        _ => Err(Misread::NotUnderstood),
    }
}

/// The sweep over a device's calls.
fn sweep(device: &str, calls: &[&str]) -> Result<Asked, Misread> {
    match calls {
        [] => stream_sweep(device),
        ["last", calls] => last_sweep(device, number(calls)?),
        [first, last] => Ok(Asked::Disk(side_of(device)?, number(first)?, number(last)?)),
        calls => both_sweep(device, calls),
    }
}

/// The sweep over both disks' calls.
fn both_sweep(devices: &str, calls: &[&str]) -> Result<Asked, Misread> {
    match (devices, calls) {
        ("disks", [left, last_left, right, last_right]) => Ok(Asked::Stops(
            stop(left, right)?,
            stop(last_left, last_right)?,
        )),
        _ => Err(Misread::NotUnderstood),
    }
}

/// A byte of a disk that is another: the record that it damages, its place and itself.
fn forged(disk: &str, numbers: &[&str]) -> Result<Asked, Misread> {
    match numbers {
        [index, place, value] => Ok(Asked::Forged(Forged {
            side: side_of(disk)?,
            index: number(index)?,
            place: number(place)?,
            byte: byte(value)?,
        })),
        _ => Err(Misread::NotUnderstood),
    }
}

/// The calls that words spell.
fn stop(left: &str, right: &str) -> Result<Stop, Misread> {
    Ok(Stop {
        left: number(left)?,
        right: number(right)?,
    })
}

/// The sweep over a stream's calls.
fn stream_sweep(stream: &str) -> Result<Asked, Misread> {
    match stream {
        "source" => Ok(Asked::Source),
        "sink" => Ok(Asked::Sink(u64::MAX)),
        _ => Err(Misread::NotUnderstood),
    }
}

/// The sweep over the sink's last so many calls.
fn last_sweep(stream: &str, calls: u64) -> Result<Asked, Misread> {
    match stream {
        "sink" => Ok(Asked::Sink(calls)),
        _ => Err(Misread::NotUnderstood),
    }
}

/// What a fact says of a device, or of what is unread.
fn says(alloc: Global, device: &str, words: &[&str]) -> Result<Says, Misread> {
    match words {
        [count] => unread(device, number(count)?),
        ["faults", count] => faults(device, number(count)?),
        held => Ok(Says::Disk(side_of(device)?, read_held(alloc, held)?)),
    }
}

/// That so many bytes are unread.
fn unread(what: &str, count: u64) -> Result<Says, Misread> {
    match what {
        "unread" => Ok(Says::Unread(count)),
        _ => Err(Misread::NotUnderstood),
    }
}

/// That so many calls of a stream failed.
fn faults(stream: &str, count: u64) -> Result<Says, Misread> {
    match stream {
        "source" => Ok(Says::SourceFaults(count)),
        "sink" => Ok(Says::SinkFaults(count)),
        _ => Err(Misread::NotUnderstood),
    }
}
