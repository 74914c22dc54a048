//! A device in memory, whose reads and writes do a part of what they are asked, and whose calls
//! fail where they are told to.
ghost use Rattle.std.specs.Prelude.{◌≡◌, ◌≤◌, ◌<◌, ◌↔◌, ◌+◌, ◌-◌, ◌++◌, ◌^◌, [], Ok, Some, length, take, drop, min, IfOk, OnOk, OnErr, IsErr};
ghost use Rattle.liq_outside.specs.Calls.{FailsNext, not_begun};
ghost use Rattle.liq_outside.specs.Devices.{after_asking, after_failure, after_syncing, after_writing};

use super::device::Device;
use super::device_disk::DeviceDisk;
use super::failed::Failed;
use super::made::overwrite;
use super::reading::read_part;
use super::schedule::Schedule;
use std::alloc::Global;
use std::marker::Model;

/// Bytes in memory as a device: a read or a write takes a chunk at most.
///
/// A call fails where its number, counted from 0, is one of those in `failing`, where no memory is
/// left for what it has to keep, and at a write past the end. A contract sees the bytes, what they
/// were at the last sync, the chunk and the calls.
#[derive(Drop)]
pub struct MemoryDevice {
    alloc: Global,
    bytes: Vec<u8>,
    synced: Vec<u8>,
    chunk: usize,
    schedule: Schedule,
}

impl Model for MemoryDevice {
    ghost use Rattle.std.specs.Prelude.{◌<◌};
    ghost use Rattle.liq_outside.specs.Devices.{DeviceInMemory};

    ghost Value = { DeviceInMemory };

    ghost view = { λ d. record {
      held = d.bytes.items;
      synced = d.synced.items;
      chunk = d.chunk;
      calls = d.schedule;
    } };

    ghost invariant = { λ d. 0 < d.chunk };
}

impl MemoryDevice {
    /// A device without bytes, of which a read or a write takes at most `chunk`.
    pub fn new(alloc: Global, chunk: usize, failing: Vec<u64>) -> Self
        requires { 1 ≤ chunk }
        ensures { result ≡ record {
          held = [];
          synced = [];
          chunk = chunk;
          calls = not_begun failing.items;
        } }
    {
        MemoryDevice {
            alloc,
            bytes: Vec::new(alloc),
            synced: Vec::new(alloc),
            chunk,
            schedule: Schedule::new(failing),
        }
    }
}

impl DeviceDisk<MemoryDevice> {
    /// The disk over this device.
    pub fn new(device: MemoryDevice) -> Self
        ensures device { result.device ≡ Some device }
        ensures moment { result.moment ≡ 0 }
        ensures faults { result.faults ≡ 0 }
    {
        DeviceDisk::over(Some(device))
    }
}

impl Device for MemoryDevice {
    ghost held = { λ d. Some d.held };

    ghost synced = { λ d. Some d.synced };

    ghost failures = { λ d. Some d.calls.faults };

    fn length(&mut self) -> Result<u64, Failed>
        ensures listed { IsErr result ↔ FailsNext self.old.calls }
        ensures told { IfOk result (λ n. n ≡ length self.old.held) }
        ensures asked { OnOk result (self.new ≡ after_asking self.old) }
        ensures failed { OnErr result (self.new ≡ after_failure self.old) }
    {
        if self.schedule.begin() {
            self.schedule.fault();
            return Err(Failed);
        }
        Ok(self.bytes.len() as u64)
    }

    fn read_some(&mut self, at: u64, buf: &mut [u8]) -> Result<usize, Failed>
        ensures listed { IsErr result ↔ FailsNext self.old.calls }
        ensures told { IfOk result (λ n.
            (n ≡ min (min (length buf.old) self.old.chunk) (length self.old.held - at))
            × (buf.new ≡ take n (drop at self.old.held) ++ drop n buf.old)) }
        ensures end { result ≡ Ok 0 → 0 < length buf.old → length self.old.held ≤ at }
        ensures asked { OnOk result (self.new ≡ after_asking self.old) }
        ensures failed { OnErr result (self.new ≡ after_failure self.old) }
    {
        if self.schedule.begin() {
            self.schedule.fault();
            return Err(Failed);
        }
        Ok(read_part(&self.bytes, at as usize, self.chunk, buf))
    }

    fn write_some(&mut self, at: u64, bytes: &[u8]) -> Result<usize, Failed>
        requires limit { at + length bytes.now ≤ 2 ^ 40 }
        ensures listed { FailsNext self.old.calls → IsErr result }
        // Any other failure is want of memory, or a place past the end.
        ensures past { length self.old.held < at → IsErr result }
        ensures taken { IfOk result (λ n. n ≡ min (length bytes.now) self.old.chunk) }
        ensures some { 0 < length bytes.now → IfOk result (λ n. 0 < n) }
        ensures written { IfOk result (λ n. self.new
            ≡ after_writing self.old at (take n bytes.now)) }
        ensures failed { OnErr result (self.new ≡ after_failure self.old) }
    {
        if self.schedule.begin() || self.bytes.len() < at as usize {
            self.schedule.fault();
            return Err(Failed);
        }
        let count = bytes.len().min(self.chunk);
        // What the write replaces is let go: a device notes nothing.
        let mut before = Vec::new(self.alloc);
        match overwrite(
            self.alloc,
            &mut self.bytes,
            &mut before,
            at as usize,
            &bytes[..count],
        ) {
            Ok(()) => Ok(count),
            Err(_) => {
                self.schedule.fault();
                Err(Failed)
            }
        }
    }

    fn sync(&mut self) -> Result<(), Failed>
        // Any other failure is want of memory.
        ensures listed { FailsNext self.old.calls → IsErr result }
        ensures synced { OnOk result (self.new ≡ after_syncing self.old) }
        ensures failed { OnErr result (self.new ≡ after_failure self.old) }
    {
        if self.schedule.begin() {
            self.schedule.fault();
            return Err(Failed);
        }
        match self.bytes.to_vec(self.alloc) {
            Ok(bytes) => {
                self.synced = bytes;
                Ok(())
            }
            Err(_) => {
                self.schedule.fault();
                Err(Failed)
            }
        }
    }
}
