//! What one run meets, and what it leaves.

ghost use Rattle.std.specs.Prelude.{◌≡◌, IsTrue, codes, map};
ghost use Rattle.std.specs.String.{string_bytes};
ghost use Rattle.liq_word_line.specs.declared.words.Word.{Word};
ghost use Rattle.liq_word_line.specs.Words.{Ask};

use crate::disks::crash;
use crate::sink::SmallSink;
use liq_case_files::{ALL, READ, Side, Start};
use liq_outside::{MemoryDisk, MemorySource};
use liq_serve::{Ended, OpenGate, protocol, without_threads};
use liq_sessions::Gate;
use std::alloc::{AllocError, Global};
use std::sync::Wait;
use std::thread::Threads;

/// What a run meets: its words, its input, how many bytes a read gives and a write takes, what the
/// disks hold, and which calls fail.
#[derive(Clone, Copy)]
pub struct Devices<'a> {
    pub words: &'a [String],
    pub input: &'a [u8],
    pub read: u64,
    pub write: u64,
    pub left: &'a [u8],
    pub right: &'a [u8],
    pub source_fails: &'a [u64],
    pub sink_fails: &'a [u64],
    pub left_fails: &'a [u64],
    pub right_fails: &'a [u64],
}

impl<'a> Devices<'a> {
    /// Empty disks, and nothing that fails.
    pub fn new(words: &'a [String], input: &'a [u8]) -> Devices<'a> {
        Devices {
            words,
            input,
            read: READ,
            write: ALL,
            left: &[],
            right: &[],
            source_fails: &[],
            sink_fails: &[],
            left_fails: &[],
            right_fails: &[],
        }
    }
}

/// What a run leaves.
pub struct Outcome {
    pub ended: Ended<MemoryDisk>,
    pub source: MemorySource,
    pub sink: SmallSink,
}

// odd: drop written out
impl Drop for Outcome {
    fn drop(self) {
        let Outcome {
            ended: _,
            source: _,
            sink: _,
        } = self;
    }
}

impl Outcome {
    /// The exit status.
    pub fn status(&self) -> u64 {
        u64::from(self.ended.status)
    }

    /// All that went out.
    pub fn output(&self) -> &[u8] {
        &self.sink.bytes
    }

    /// What no read has taken.
    pub fn unread(&self) -> &[u8] {
        self.source.left()
    }

    /// What the disk of a side holds.
    pub fn held(&self, side: Side) -> &[u8] {
        match side {
            Side::Left => self.ended.left.bytes(),
            Side::Right => self.ended.right.bytes(),
        }
    }

    /// Crashes both disks, that of a side by this choice and the other one by choice 0.
    pub fn crash(&mut self, alloc: Global, side: Side, choice: u64) {
        let (left, right) = match side {
            Side::Left => (choice, 0),
            Side::Right => (0, choice),
        };
        crash(alloc, &mut self.ended.left, left);
        crash(alloc, &mut self.ended.right, right);
    }

    /// Crashes both disks by this choice, and tells what they hold then.
    pub fn crash_both(&mut self, alloc: Global, choice: u64) -> Result<Start, AllocError> {
        crash(alloc, &mut self.ended.left, choice);
        crash(alloc, &mut self.ended.right, choice);
        let left = self.ended.left.bytes().to_vec(alloc)?;
        let right = self.ended.right.bytes().to_vec(alloc)?;
        Ok(Start { left, right })
    }
}

/// The streams and the disks of a run: its source and its sink, its left disk and its right one.
type Made = (MemorySource, SmallSink, MemoryDisk, MemoryDisk);

/// A disk that holds these bytes, and whose calls of these numbers fail.
fn disk(alloc: Global, bytes: &[u8], failing: &[u64]) -> Result<MemoryDisk, AllocError> {
    Ok(MemoryDisk::new(alloc, bytes.to_vec(alloc)?, failing.to_vec(alloc)?))
}

fn make(alloc: Global, devices: &Devices<'_>) -> Result<Made, AllocError> {
    let read = (devices.read as usize).max(1);
    let write = (devices.write as usize).max(1);
    let input = devices.input.to_vec(alloc)?;
    let source = MemorySource::new(input, read, devices.source_fails.to_vec(alloc)?);
    let sink = SmallSink::new(alloc, write, devices.sink_fails.to_vec(alloc)?);
    let left = disk(alloc, devices.left, devices.left_fails)?;
    let right = disk(alloc, devices.right, devices.right_fails)?;
    Ok((source, sink, left, right))
}

fn is_serve(word: &str) -> bool
    ensures { word.now ≡ codes "serve" → IsTrue result }
{
    matches!(word, "serve")
}

/// Whether the words ask for sessions, which want threads.
pub fn are_serve(words: &[String]) -> bool
    ensures { Ask (map string_bytes words.now) Word.Serve → IsTrue result }
{
    match words {
        [word] => is_serve(word),
        _ => false,
    }
}

/// A run by the call with threads.
pub fn by_protocol<R: Threads + Wait + Sync>(
    rt: &R,
    alloc: Global,
    devices: &Devices<'_>,
) -> Result<Outcome, AllocError> {
    through(rt, alloc, &OpenGate, devices)
}

/// The same, where sessions go through a gate.
pub fn through<R: Threads + Wait + Sync, G: Gate + Sync>(
    rt: &R,
    alloc: Global,
    gate: &G,
    devices: &Devices<'_>,
) -> Result<Outcome, AllocError> {
    let (mut source, mut sink, left, right) = make(alloc, devices)?;
    let ended = protocol(
        rt,
        alloc,
        gate,
        devices.words,
        &mut source,
        &mut sink,
        left,
        right,
    );
    Ok(Outcome {
        ended,
        source,
        sink,
    })
}

/// A run by the call without threads, of words that do not ask for sessions.
pub fn by_one_thread(alloc: Global, devices: &Devices<'_>) -> Result<Outcome, AllocError>
    requires { Ask (map string_bytes devices.now.words.now) Word.Serve → ⊥ }
{
    let (mut source, mut sink, left, right) = make(alloc, devices)?;
    let ended = without_threads(alloc, devices.words, &mut source, &mut sink, left, right);
    Ok(Outcome {
        ended,
        source,
        sink,
    })
}
