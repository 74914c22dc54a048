//! std's readers and writers as a source and a sink. As such they tell no content: only faults are
//! told.
ghost use Rattle.std.specs.Prelude.{◌≡◌, ◌≤◌, ◌<◌, None, length, IfOk};
ghost use Rattle.std.specs.Io.KnownBytes.{ReadConsumes, WriteAppends};
ghost use Rattle.liq_outside.specs.Adapters.{CountsFailure};
ghost use Rattle.liq_outside.specs.Faults.{HasCause};

use super::disk::Disk;
use super::failed::Failed;
use super::sink::Sink;
use super::source::Source;
use std::io::{Read, Write};
use std::marker::Model;

/// A reader as a source: each call is one read. A contract sees the reader and how many reads
/// failed.
#[derive(Drop)]
pub struct StdSource<R> {
    reader: R,
    faults: u64,
}

impl<R> Model for StdSource<R> {
    ghost use Rattle.liq_outside.specs.Adapters.{Counted};

    ghost Value = { Counted R };

    ghost view = { λ s. record { inner = s.reader; faults = s.faults } };
}

impl<R: Read> StdSource<R> {
    /// The reader as a source, of which no read has failed yet.
    pub fn new(reader: R) -> Self
        ensures reader { result.inner ≡ reader }
        ensures faults { result.faults ≡ 0 }
    {
        StdSource { reader, faults: 0 }
    }

    /// How many reads have failed. It stays at the last value of a u64.
    pub fn faults(&self) -> u64
        ensures { result ≡ self.now.faults }
    {
        self.faults
    }
}

impl<R: Read> Source for StdSource<R> {
    ghost at = { λ s. record { left = None; faults = s.faults } };

    fn read(&mut self, buf: &mut [u8]) -> Result<usize, Failed>
        ensures fits { IfOk result (λ n. n ≤ length buf.old) }
        ensures bytes { ReadConsumes (R.remaining self.old.inner)
            (R.remaining self.new.inner) result buf.new }
        ensures counted { CountsFailure result self.old.faults self.new.faults }
        ensures cause { HasCause self.old.faults self.new.faults result }
    {
        match self.reader.read(buf) {
            Ok(count) => Ok(count),
            Err(_) => {
                self.faults = self.faults.saturating_add(1);
                Err(Failed)
            }
        }
    }
}

/// A writer as a sink: each call is one write. A contract sees the writer and how many writes
/// failed.
#[derive(Drop)]
pub struct StdSink<W> {
    writer: W,
    faults: u64,
}

impl<W> Model for StdSink<W> {
    ghost use Rattle.liq_outside.specs.Adapters.{Counted};

    ghost Value = { Counted W };

    ghost view = { λ s. record { inner = s.writer; faults = s.faults } };
}

impl<W: Write> StdSink<W> {
    /// The writer as a sink, of which no write has failed yet.
    pub fn new(writer: W) -> Self
        ensures writer { result.inner ≡ writer }
        ensures faults { result.faults ≡ 0 }
    {
        StdSink { writer, faults: 0 }
    }

    /// How many writes have failed. It stays at the last value of a u64.
    pub fn faults(&self) -> u64
        ensures { result ≡ self.now.faults }
    {
        self.faults
    }
}

impl<W: Write> Sink for StdSink<W> {
    ghost at = { λ s. record { held = None; shown = None; faults = s.faults } };

    /// It tells nothing of what it is shown.
    fn show<D: Disk>(&mut self, _left: &D, _right: &D)
        ensures { self.new ≡ self.old }
    {}

    /// A writer that takes none of a piece that isn't empty has failed too.
    fn write(&mut self, bytes: &[u8]) -> Result<usize, Failed>
        ensures fits { IfOk result (λ n. n ≤ length bytes.now) }
        ensures some { 0 < length bytes.now → IfOk result (λ n. 0 < n) }
        ensures bytes { WriteAppends (W.contents self.old.inner)
            (W.contents self.new.inner) result bytes.now }
        ensures counted { CountsFailure result self.old.faults self.new.faults }
        ensures cause { HasCause self.old.faults self.new.faults result }
    {
        match self.writer.write(bytes) {
            Ok(count) if count > 0 || bytes.is_empty() => Ok(count),
            _ => {
                self.faults = self.faults.saturating_add(1);
                Err(Failed)
            }
        }
    }
}
