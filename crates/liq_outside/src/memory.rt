//! A source and a sink in memory, whose calls fail where they are told to.
ghost use Rattle.std.specs.Prelude.{◌≡◌, ◌≤◌, ◌<◌, ◌↔◌, ◌⊎◌, ◌++◌, [], Some, is_some, length, take, drop, IfOk, IfSome, OnOk, OnErr, IsErr, IsSome};
ghost use Rattle.liq_outside.specs.Calls.{FailsNext, not_begun};
ghost use Rattle.liq_outside.specs.Faults.{HasCause};
ghost use Rattle.liq_outside.specs.Memory.{after_failed_read, after_failed_write, after_read, after_write, count_taken, sink_at, source_at};
ghost use Rattle.liq_outside.specs.Showings.{Notes};

use super::disk::Disk;
use super::failed::Failed;
use super::key::Key;
use super::reading::read_part;
use super::schedule::Schedule;
use super::showing::Showing;
use super::sink::Sink;
use super::source::Source;
use std::alloc::{AllocError, Global};
use std::marker::Model;

/// Bytes in memory that are read in order, a chunk at most in a call.
///
/// A read fails exactly where its number, counted from 0, is one of those in `failing`. A contract
/// sees what is left, the chunk and the calls.
#[derive(Drop)]
pub struct MemorySource {
    bytes: Vec<u8>,
    taken: usize,
    chunk: usize,
    schedule: Schedule,
}

impl Model for MemorySource {
    ghost use Rattle.std.specs.Prelude.{◌≤◌, ◌<◌, drop, length};
    ghost use Rattle.liq_outside.specs.Memory.{SourceInMemory};

    ghost Value = { SourceInMemory };

    ghost view = { λ s. record {
      left = drop s.taken s.bytes.items;
      chunk = s.chunk;
      calls = s.schedule;
    } };

    ghost invariant = { λ s. (s.taken ≤ length s.bytes.items) × (0 < s.chunk) };
}

impl MemorySource {
    /// A source of these bytes, of which a read takes at most `chunk`.
    pub fn new(bytes: Vec<u8>, chunk: usize, failing: Vec<u64>) -> Self
        requires { 1 ≤ chunk }
        ensures left { result.left ≡ bytes.items }
        ensures chunk { result.chunk ≡ chunk }
        ensures calls { result.calls ≡ not_begun failing.items }
    {
        MemorySource {
            bytes,
            taken: 0,
            chunk,
            schedule: Schedule::new(failing),
        }
    }

    /// The bytes that no read has taken yet.
    pub fn left(&self) -> &[u8]
        ensures { result.now ≡ self.now.left }
    {
        &self.bytes[self.taken..]
    }

    /// How many reads have failed. It stays at the last value of a u64.
    pub fn faults(&self) -> u64
        ensures { result ≡ self.now.calls.faults }
    {
        self.schedule.faults()
    }
}

impl Source for MemorySource {
    ghost at = { source_at };

    fn read(&mut self, buf: &mut [u8]) -> Result<usize, Failed>
        // It fails exactly where it is told to, and else takes all that buffer, chunk and rest
        // allow.
        ensures listed { IsErr result ↔ FailsNext self.old.calls }
        ensures taken { IfOk result (λ n. n ≡ count_taken self.old (length buf.old)) }
        ensures copied { IfOk result (λ n. buf.new ≡ take n self.old.left ++ drop n buf.old) }
        ensures read { IfOk result (λ n. self.new ≡ after_read self.old n) }
        ensures not_read { OnErr result (self.new ≡ after_failed_read self.old) }

        ensures end { result ≡ Ok 0 → 0 < length buf.old → self.old.left ≡ [] }
        ensures cause { HasCause self.old.calls.faults self.new.calls.faults result }
    {
        if self.schedule.begin() {
            self.schedule.fault();
            return Err(Failed);
        }
        let count = read_part(&self.bytes, self.taken, self.chunk, buf);
        self.taken += count;
        Ok(count)
    }
}

/// Holds in memory what is written, each piece whole or not at all.
///
/// A write fails where its number, counted from 0, is one of those in `failing`, and where no
/// memory is left for its bytes. It notes each time that it is shown two disks, while it has room
/// for one more, and forgets them all where it has none and no memory is left. A contract sees what
/// is held, what was shown, the room for that and the calls.
#[derive(Drop)]
pub struct MemorySink {
    bytes: Vec<u8>,
    shown: Option<Vec<Showing>>,
    schedule: Schedule,
}

impl Model for MemorySink {
    ghost use Rattle.std.specs.Prelude.{option_map, unwrap_or, vec_capacity};
    ghost use Rattle.liq_outside.specs.Memory.{SinkInMemory};

    ghost Value = { SinkInMemory };

    ghost view = { λ s. record {
      held = s.bytes.items;
      shown = option_map (λ v. v.items) s.shown;
      room = unwrap_or (option_map (λ v. vec_capacity v) s.shown) 0;
      calls = s.schedule;
    } };
}

impl MemorySink {
    /// A sink that holds nothing yet.
    pub fn new(alloc: Global, failing: Vec<u64>) -> Self
        ensures held { result.held ≡ [] }
        ensures shown { result.shown ≡ Some [] }
        ensures calls { result.calls ≡ not_begun failing.items }
    {
        MemorySink {
            bytes: Vec::new(alloc),
            shown: Some(Vec::new(alloc)),
            schedule: Schedule::new(failing),
        }
    }

    /// A sink that holds nothing yet, and notes at least so many times that it is shown two disks.
    pub fn with_room(alloc: Global, notes: usize, failing: Vec<u64>) -> Result<Self, AllocError>
        ensures held { IfOk result (λ sink. sink.held ≡ []) }
        ensures shown { IfOk result (λ sink. sink.shown ≡ Some []) }
        ensures room { IfOk result (λ sink. notes ≤ sink.room) }
        ensures calls { IfOk result (λ sink. sink.calls ≡ not_begun failing.items) }
    {
        let shown = Vec::with_capacity(alloc, notes)?;
        Ok(MemorySink {
            bytes: Vec::new(alloc),
            shown: Some(shown),
            schedule: Schedule::new(failing),
        })
    }

    /// The bytes that were written.
    pub fn bytes(&self) -> &[u8]
        ensures { result.now ≡ self.now.held }
    {
        &self.bytes
    }

    /// Whether it still tells what it was shown. It stops where it has no room and there is no memory
    /// for a note, and forgets them all.
    pub fn tells(&self) -> bool
        ensures { result ≡ is_some self.now.shown }
    {
        self.shown.is_some()
    }

    /// How many writes have failed. It stays at the last value of a u64.
    pub fn faults(&self) -> u64
        ensures { result ≡ self.now.calls.faults }
    {
        self.schedule.faults()
    }
}

impl Sink for MemorySink {
    ghost at = { sink_at };

    fn show<D: Disk>(&mut self, left: &D, right: &D)
        ensures same { self.new
            ≡ record self.old { shown = self.new.shown; room = self.new.room } }
        ensures shown { Notes D.at (Some self.old.held) left.now right.now
            self.old.shown self.new.shown }
        // While it has room it notes, and the room stays.
        ensures noted { IfSome self.old.shown (λ earlier.
            length earlier < self.old.room → IsSome self.new.shown) }
        ensures room { IsSome self.new.shown → self.old.room ≤ self.new.room }
    {
        let key = Key::new();
        let showing = Showing {
            held: self.bytes.len() as u64,
            left: left.moment(&key),
            right: right.moment(&key),
        };
        let stays = match &mut self.shown {
            Some(shown) => shown.push(showing).is_ok(),
            None => true,
        };
        if !stays {
            self.shown = None;
        }
    }

    fn write(&mut self, bytes: &[u8]) -> Result<usize, Failed>
        // It fails where it is told to. Any other failure is want of memory, which an empty piece
        // can't meet.
        ensures listed { FailsNext self.old.calls → IsErr result }
        ensures unlisted { OnErr result (FailsNext self.old.calls ⊎ (0 < length bytes.now)) }
        ensures whole { IfOk result (λ n. n ≡ length bytes.now) }
        ensures written { OnOk result (self.new ≡ after_write self.old bytes.now) }
        ensures not_written { OnErr result (self.new ≡ after_failed_write self.old) }
        ensures cause { HasCause self.old.calls.faults self.new.calls.faults result }
    {
        if self.schedule.begin() || self.bytes.extend_from_slice(bytes).is_err() {
            self.schedule.fault();
            return Err(Failed);
        }
        Ok(bytes.len())
    }
}
