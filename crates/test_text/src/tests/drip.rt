//! A sink that takes few bytes in a call.

ghost use Rattle.std.specs.Prelude.{◌≡◌, ◌<◌, None, Some};

use liq_outside::{Disk, Failed, Sink};
use std::alloc::Global;

/// Takes at most `most` bytes in a call, and fails in the call of one number, counted from 0.
#[derive(Drop)]
pub struct Drip {
    bytes: Vec<u8>,
    most: usize,
    failing: usize,
    calls: usize,
    /// How many bytes were held when each call began.
    before: Vec<usize>,
    faults: u64,
    ghost some: { 0 < most },
}

impl Drip {
    pub fn new(alloc: Global, most: usize, failing: usize) -> Drip
        requires { 0 < most }
    {
        Drip {
            bytes: Vec::new(alloc),
            most,
            failing,
            calls: 0,
            before: Vec::new(alloc),
            faults: 0,
        }
    }

    /// What was written.
    pub fn bytes(&self) -> &[u8] {
        &self.bytes
    }

    /// How many calls it had.
    pub fn calls(&self) -> usize {
        self.calls
    }

    /// How many bytes were held when a call began; all that were written where there was no such
    /// call.
    pub fn before(&self, call: usize) -> usize {
        self.before.get(call).copied().unwrap_or(self.bytes.len())
    }
}

impl Sink for Drip {
    ghost at = { λ s. record { held = Some s.bytes.items; shown = None; faults = s.faults } };

    fn show<D: Disk>(&mut self, _left: &D, _right: &D) {}

    fn write(&mut self, bytes: &[u8]) -> Result<usize, Failed> {
        let count = bytes.len().min(self.most);
        let fails = self.calls == self.failing;
        self.calls = self.calls.saturating_add(1);
        let noted = self.before.push(self.bytes.len());
        if fails || noted.is_err() || self.bytes.extend_from_slice(&bytes[..count]).is_err() {
            self.faults = self.faults.saturating_add(1);
            return Err(Failed);
        }
        Ok(count)
    }
}
