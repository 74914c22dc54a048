//! A sink that takes few bytes in a call.

ghost use Rattle.std.specs.Prelude.{◌≡◌, ◌<◌, None, Some};

use liq_outside::{Disk, Failed, Sink};
use std::alloc::Global;

/// Takes at most `most` bytes in a call, and fails in the calls of these numbers, counted from 0.
#[derive(Drop)]
pub struct SmallSink {
    /// What was written.
    pub bytes: Vec<u8>,
    /// How many bytes each call took that did not fail.
    pub taken: Vec<usize>,
    most: usize,
    failing: Vec<u64>,
    calls: u64,
    /// How many calls failed.
    pub faults: u64,
    ghost some: { 0 < most },
}

impl SmallSink {
    pub fn new(alloc: Global, most: usize, failing: Vec<u64>) -> SmallSink
        requires { 0 < most }
    {
        SmallSink {
            bytes: Vec::new(alloc),
            taken: Vec::new(alloc),
            most,
            failing,
            calls: 0,
            faults: 0,
        }
    }

    /// What the first so many of the calls took that took bytes.
    pub fn taken_by(&self, calls: usize) -> &[u8] {
        let mut taken: usize = 0;
        for count in self.taken.iter().take(calls) {
            taken = taken.saturating_add(*count);
        }
        self.bytes.get(..taken).unwrap_or(&self.bytes)
    }
}

impl Sink for SmallSink {
    ghost at = { λ s. record { held = Some s.bytes.items; shown = None; faults = s.faults } };

    fn show<D: Disk>(&mut self, _left: &D, _right: &D) {}

    fn write(&mut self, bytes: &[u8]) -> Result<usize, Failed> {
        let count = bytes.len().min(self.most);
        let fails = self.failing.contains(&self.calls);
        self.calls = self.calls.saturating_add(1);
        if fails
            || self.taken.push(count).is_err()
            || self.bytes.extend_from_slice(&bytes[..count]).is_err()
        {
            self.faults = self.faults.saturating_add(1);
            return Err(Failed);
        }
        Ok(count)
    }
}
