//! What `serve` writes, taken apart, and asked again by one session.

use crate::devices::{Devices, Outcome};
use crate::runs::run_word;
use crate::stage::Stage;
use liq_case_files::{Lines, Report, Side, ends_line};
use liq_text::read_number;
use std::alloc::{AllocError, Global};
use std::sync::Wait;
use std::thread::Threads;

/// Texts of eight sessions, those of one behind those of another, and where each session's begin
/// and end.
struct BySession<'a> {
    texts: Vec<&'a [u8]>,
    ranges: [(usize, usize); 9],
}

// odd: drop written out
impl Drop for BySession<'_> {
    fn drop(self) {
        let BySession {
            texts: _,
            ranges: _,
        } = self;
    }
}

impl<'a> BySession<'a> {
    fn new(alloc: Global) -> BySession<'a> {
        BySession {
            texts: Vec::new(alloc),
            ranges: [(0, 0); 9],
        }
    }

    /// Takes a text of a session, whose texts stand together.
    fn push(&mut self, session: u8, text: &'a [u8]) -> Result<(), AllocError> {
        let here = self.texts.len();
        self.texts.push(text)?;
        if let Some(range) = self.ranges.get_mut(session as usize) {
            if range.1 == 0 {
                range.0 = here;
            }
            range.1 = here.saturating_add(1);
        }
        Ok(())
    }

    /// Takes the lines that a session asks.
    fn take(&mut self, session: u8, input: &'a [u8]) -> Result<(), AllocError> {
        for line in input.split(ends_line) {
            if let [digit, b' ', request @ ..] = line
                && session_of(*digit) == session
            {
                self.push(session, request)?;
            }
        }
        Ok(())
    }

    /// Appends the texts of a session below its heading, where it has any.
    fn put_session(&self, text: &mut Vec<u8>, session: u8) -> Result<(), AllocError> {
        let (start, end) = self.ranges.get(session as usize).copied().unwrap_or((0, 0));
        if start < end {
            text.extend_from_slice(b"session ")?;
            put(text, Some(&[b'0'.saturating_add(session)]))?;
        }
        for line in self.texts.get(start..end).unwrap_or(&[]) {
            put(text, Some(*line))?;
        }
        Ok(())
    }

    /// The text of a session at a place, counted from 0.
    fn at(&self, session: u8, place: usize) -> Option<&'a [u8]> {
        let (start, end) = *self.ranges.get(session as usize)?;
        let place = start.saturating_add(place);
        if place < end {
            self.texts.get(place).copied()
        } else {
            None
        }
    }
}

/// How many calls each session has had.
#[derive(Drop)]
struct Counts {
    counts: [usize; 9],
}

impl Counts {
    /// Counts one call more of a session, and answers how many it had before.
    fn next(&mut self, session: u8) -> usize {
        match self.counts.get_mut(session as usize) {
            Some(count) => {
                let before = *count;
                *count = before.saturating_add(1);
                before
            }
            None => usize::MAX,
        }
    }
}

/// What was written: the replies, and the sessions of the entries in the order of the history.
struct Output<'a> {
    replies: BySession<'a>,
    history: Vec<u8>,
    /// How many entries do not count their session's calls in order.
    out_of_order: u64,
}

// odd: drop written out
impl Drop for Output<'_> {
    fn drop(self) {
        let Output {
            replies: _,
            history: _,
            out_of_order: _,
        } = self;
    }
}

/// How far an output is read: the session of the heading, whether the history has begun, and the
/// calls in it.
#[derive(Drop)]
struct Reading {
    session: u8,
    in_history: bool,
    counts: Counts,
}

impl<'a> Output<'a> {
    /// Takes a line.
    fn take(&mut self, reading: &mut Reading, line: &'a [u8]) -> Result<(), AllocError> {
        match line {
            [] => Ok(()),
            b"history" => {
                reading.in_history = true;
                Ok(())
            }
            [digit, b' ', index @ ..] if reading.in_history => {
                self.take_entry(&mut reading.counts, session_of(*digit), index)
            }
            line => self.take_reply(reading, line),
        }
    }

    /// Takes an entry of the history.
    fn take_entry(
        &mut self,
        counts: &mut Counts,
        caller: u8,
        index: &[u8],
    ) -> Result<(), AllocError> {
        let before = counts.next(caller);
        if read_number(index) != Some((before as u64).saturating_add(1)) {
            self.out_of_order = self.out_of_order.saturating_add(1);
        }
        self.history.push(caller)?;
        Ok(())
    }

    /// Takes the heading of a session, or a reply to it.
    fn take_reply(&mut self, reading: &mut Reading, line: &'a [u8]) -> Result<(), AllocError> {
        match line.strip_prefix(b"session ") {
            Some([digit]) => {
                reading.session = session_of(*digit);
                Ok(())
            }
            _ => self.replies.push(reading.session, line),
        }
    }
}

/// The session of a digit.
fn session_of(digit: u8) -> u8 {
    digit.wrapping_sub(b'0')
}

/// The lines that each session asks, without the session in front.
fn asked(alloc: Global, input: &[u8]) -> Result<BySession<'_>, AllocError> {
    let mut lines = BySession::new(alloc);
    for session in 1..9u8 {
        lines.take(session, input)?;
    }
    Ok(lines)
}

/// Takes an output apart.
fn taken_apart(alloc: Global, output: &[u8]) -> Result<Output<'_>, AllocError> {
    let mut parts = Output {
        replies: BySession::new(alloc),
        history: Vec::new(alloc),
        out_of_order: 0,
    };
    let mut reading = Reading {
        session: 0,
        in_history: false,
        counts: Counts { counts: [0; 9] },
    };
    for line in output.split(ends_line) {
        parts.take(&mut reading, line)?;
    }
    Ok(parts)
}

/// The output of which these are the parts.
fn put_together(alloc: Global, parts: &Output<'_>) -> Result<Vec<u8>, AllocError> {
    let mut text = Vec::new(alloc);
    for session in 1..9u8 {
        parts.replies.put_session(&mut text, session)?;
    }
    text.extend_from_slice(b"history\n")?;
    put_history(alloc, &mut text, &parts.history)?;
    Ok(text)
}

/// Appends the entries of a history.
fn put_history(alloc: Global, text: &mut Vec<u8>, history: &[u8]) -> Result<(), AllocError> {
    let mut counts = Counts { counts: [0; 9] };
    for session in history {
        let index = counts.next(*session).saturating_add(1);
        let entry = format!(in alloc; "{session} {index}\n")?;
        text.extend_from_slice(entry.as_bytes())?;
    }
    Ok(())
}

/// Tells where the output of sessions is not what it must be: each session's replies, and a history
/// that has each line once.
pub fn check_served<R: Threads + Wait + Sync>(
    rt: &R,
    stage: &Stage<'_>,
    told: &mut Report,
    served: &Outcome,
) -> Result<(), AllocError> {
    check_history(rt, stage, told, served)?;
    if stage.run.legal {
        told.number(
            "bytes of replies that nothing compares",
            0,
            stage.run.lines.output.len() as u64,
        );
        return Ok(());
    }
    check_replies(stage.alloc, told, &stage.run.lines, served.output())
}

/// Tells where the history does not have each line once, or is not one that one session can have.
fn check_history<R: Threads + Wait + Sync>(
    rt: &R,
    stage: &Stage<'_>,
    told: &mut Report,
    served: &Outcome,
) -> Result<(), AllocError> {
    let lines = asked(stage.alloc, &stage.run.lines.input)?;
    let parts = taken_apart(stage.alloc, served.output())?;
    let form = put_together(stage.alloc, &parts)?;
    told.bytes("form", &form, served.output());
    check_counts(told, lines.texts.len() as u64, &parts);
    let merged = merge(stage.alloc, &lines, &parts)?;
    check_legal(rt, stage, told, &merged, served)
}

/// Tells where there are not as many entries and replies as lines.
fn check_counts(told: &mut Report, lines: u64, parts: &Output<'_>) {
    told.number("entries of the history", lines, parts.history.len() as u64);
    told.number("entries out of order", 0, parts.out_of_order);
    told.number("replies", lines, parts.replies.texts.len() as u64);
}

/// Tells where the replies above the history are others.
fn check_replies(
    alloc: Global,
    told: &mut Report,
    lines: &Lines,
    output: &[u8],
) -> Result<(), AllocError> {
    let mut wanted = Vec::new(alloc);
    put_replies(&mut wanted, lines)?;
    told.bytes(
        "output",
        &wanted,
        output.get(..wanted.len()).unwrap_or(output),
    );
    Ok(())
}

/// Appends what must go out above the history, with the line that begins it.
fn put_replies(wanted: &mut Vec<u8>, lines: &Lines) -> Result<(), AllocError> {
    for session in b'1'..b'9' {
        lines.put_session(wanted, session)?;
    }
    wanted.extend_from_slice(b"history\n")
}

/// The lines along a history, and the replies to them.
struct Merged {
    lines: Vec<u8>,
    replies: Vec<u8>,
}

// odd: drop written out
impl Drop for Merged {
    fn drop(self) {
        let Merged {
            lines: _,
            replies: _,
        } = self;
    }
}

impl Merged {
    /// Takes a line and the reply to it.
    fn take(&mut self, line: Option<&[u8]>, reply: Option<&[u8]>) -> Result<(), AllocError> {
        put(&mut self.lines, line)?;
        put(&mut self.replies, reply)
    }
}

fn merge(alloc: Global, lines: &BySession<'_>, parts: &Output<'_>) -> Result<Merged, AllocError> {
    let mut merged = Merged {
        lines: Vec::new(alloc),
        replies: Vec::new(alloc),
    };
    let mut counts = Counts { counts: [0; 9] };
    for session in &parts.history {
        let place = counts.next(*session);
        merged.take(lines.at(*session, place), parts.replies.at(*session, place))?;
    }
    Ok(merged)
}

/// Appends a line, where there is one.
fn put(text: &mut Vec<u8>, line: Option<&[u8]>) -> Result<(), AllocError> {
    text.extend_from_slice(line.unwrap_or(b"missing"))?;
    text.extend_from_slice(b"\n")
}

/// Tells where one session that asks the lines along the history, over the disks with which the run
/// began, gets other replies, or leaves other disks than the run did.
fn check_legal<R: Threads + Wait + Sync>(
    rt: &R,
    stage: &Stage<'_>,
    told: &mut Report,
    merged: &Merged,
    served: &Outcome,
) -> Result<(), AllocError> {
    let devices = Devices {
        input: &merged.lines,
        ..stage.unfailing()
    };
    let outcome = run_word(rt, stage.alloc, told, "run", &devices)?;
    told.number("status along the history", 0, outcome.status());
    told.bytes(
        "replies along the history",
        &merged.replies,
        outcome.output(),
    );
    compare_disks(told, &outcome, served);
    Ok(())
}

/// Tells where one session leaves other disks than the run did.
fn compare_disks(told: &mut Report, outcome: &Outcome, served: &Outcome) {
    told.bytes(
        "left disk along the history",
        outcome.held(Side::Left),
        served.held(Side::Left),
    );
    told.bytes(
        "right disk along the history",
        outcome.held(Side::Right),
        served.held(Side::Right),
    );
}
