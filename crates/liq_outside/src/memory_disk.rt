//! A disk in memory, whose calls fail where they are told to, and which a crash may tear. It has
//! the bytes of now and a note of each write and sync, from the latest of which it goes back to
//! what was there before.
ghost use Rattle.std.specs.Prelude.{◌≡◌, ◌≤◌, ◌<◌, ◌↔◌, ◌⊎◌, ◌+◌, ◌-◌, ◌++◌, ◌^◌, [], Some, length, take, drop, min, IfOk, OnOk, OnErr, IsErr};
ghost use Rattle.liq_outside.specs.Calls.{FailsNext, one_more};
ghost use Rattle.liq_outside.specs.Faults.{HasCause};
ghost use Rattle.liq_outside.specs.Disk.{Elapses, Follows, LeftNow, Only, Reaches, Torn, Within};
ghost use Rattle.liq_outside.specs.DiskInMemory.{IsNoted, Looks, disk_at, fresh, after_failed_look, after_disk_write, after_sync};

use super::crash::tear;
use super::disk::Disk;
use super::failed::Failed;
use super::key::Key;
use super::made::{Made, note, note_try, overwrite};
use super::ours::Ours;
use super::reading::read_part;
use super::schedule::Schedule;
use std::alloc::Global;
use std::marker::Model;

/// Bytes in memory by their places, which a crash may tear.
///
/// A call fails where its number, counted from 0, is one of those in `failing`, and where no memory
/// is left for what it has to keep. A contract sees what is held, what was done since the start,
/// and the calls.
#[derive(Drop)]
pub struct MemoryDisk {
    alloc: Global,
    bytes: Vec<u8>,
    made: Vec<Made>,
    schedule: Schedule,
}

impl Model for MemoryDisk {
    ghost use Rattle.std.specs.Prelude.{vec_capacity};
    ghost use Rattle.liq_outside.specs.DiskInMemory.{AreWrites, Roomy};
    ghost use Rattle.liq_outside.specs.Made.{steps_of};

    ghost Value = { Roomy };

    ghost view = { λ d. record {
      disk = record { held = d.bytes.items; steps = steps_of d.made.items; calls = d.schedule };
      room = vec_capacity d.made;
    } };

    ghost invariant = { λ d. AreWrites d.bytes.items (steps_of d.made.items) };
}

impl MemoryDisk {
    /// A disk with these bytes, all of them synced.
    pub fn new(alloc: Global, bytes: Vec<u8>, failing: Vec<u64>) -> Self
        ensures { result.disk ≡ fresh bytes.items failing.items }
    {
        MemoryDisk {
            alloc,
            bytes,
            made: Vec::new(alloc),
            schedule: Schedule::new(failing),
        }
    }

    /// The bytes that a read gives.
    pub fn bytes(&self) -> &[u8]
        ensures { result.now ≡ self.now.disk.held }
    {
        &self.bytes
    }

    /// The disk after a crash at this moment, with no call failing. It is one of the images that
    /// may be left; which one is not promised. As it is built, choice 0 keeps all that was written,
    /// 1 nothing that wasn't synced, 2 and 3 a half of each write, 4 to 7 the same with other bytes
    /// in place of those that are lost.
    pub fn crash(self, choice: u64) -> MemoryDisk
        ensures left { LeftNow disk_at self result.disk.held }
        ensures synced { result.disk ≡ fresh result.disk.held [] }
    {
        let MemoryDisk {
            alloc,
            mut bytes,
            made,
            schedule: _,
        } = self;
        tear(&mut bytes, made, choice);
        MemoryDisk::new(alloc, bytes, Vec::new(alloc))
    }
}

impl Ours for MemoryDisk {}

impl Disk for MemoryDisk {
    ghost use Rattle.liq_outside.specs.Staying.{held_may_stay};

    ghost at = { disk_at };

    ghost seen_may_stay = { λ d held is. held_may_stay d.disk.held held d.disk.steps is };

    fn length(&mut self) -> Result<u64, Failed>
        ensures listed { IsErr result ↔ FailsNext self.old.disk.calls }
        ensures told { IfOk result (λ n. n ≡ length self.old.disk.held) }
        ensures looked { Looks result self.old.disk self.new.disk }
        ensures cause { HasCause self.old.disk.calls.faults self.new.disk.calls.faults result }
    {
        if self.schedule.begin() {
            self.schedule.fault();
            return Err(Failed);
        }
        Ok(self.bytes.len() as u64)
    }

    fn read_at(&mut self, place: u64, buf: &mut [u8]) -> Result<usize, Failed>
        ensures listed { IsErr result ↔ FailsNext self.old.disk.calls }
        ensures told { IfOk result (λ n.
            (n ≡ min (length buf.old) (length self.old.disk.held - place))
            × (buf.new ≡ take n (drop place self.old.disk.held) ++ drop n buf.old)) }
        ensures looked { Looks result self.old.disk self.new.disk }
        ensures cause { HasCause self.old.disk.calls.faults self.new.disk.calls.faults result }
    {
        if self.schedule.begin() {
            self.schedule.fault();
            return Err(Failed);
        }
        let most = buf.len();
        Ok(read_part(&self.bytes, place as usize, most, buf))
    }

    fn write_at(&mut self, place: u64, bytes: &[u8]) -> Result<(), Failed>
        requires inside { place ≤ length self.old.disk.held }
        requires limit { place + length bytes.now ≤ 2 ^ 40 }
        // It fails where it is told to. Any other failure is want of memory.
        ensures listed { FailsNext self.old.disk.calls → IsErr result }
        ensures unlisted { OnErr result (FailsNext self.old.disk.calls
            ⊎ ((0 < length bytes.now) ⊎ (self.old.room ≤ length self.old.disk.steps))) }
        ensures written { OnOk result (self.new.disk
            ≡ after_disk_write self.old.disk place bytes.now) }
        ensures tried { FailsNext self.old.disk.calls
            → IsNoted self.old place bytes.now self.new.disk }
        ensures not_written { (FailsNext self.old.disk.calls → ⊥)
            → OnErr result (self.new.disk ≡ after_failed_look self.old.disk) }
        ensures crash { Follows (Torn place (length bytes.now)) (LeftNow disk_at self.old)
            (LeftNow disk_at self.new) }
        ensures noted { OnOk result (Reaches (Torn place (length bytes.now))
            (LeftNow disk_at self.old) (LeftNow disk_at self.new)) }
        ensures keeps { Within (LeftNow disk_at self.old) (LeftNow disk_at self.new) }
        ensures one { OnOk result (length self.new.disk.steps
            ≡ one_more (length self.old.disk.steps)) }
        ensures one_at_most { OnErr result (length self.new.disk.steps
            ≤ length self.old.disk.steps + 1) }
        ensures time { Elapses disk_at self.old self.new }
        ensures cause { HasCause self.old.disk.calls.faults self.new.disk.calls.faults result }
    {
        let at = place as usize;
        if self.schedule.begin() {
            self.schedule.fault();
            // A crash may leave any bytes in its range all the same.
            note_try(&mut self.made, at, bytes.len());
            return Err(Failed);
        }
        match overwrite(self.alloc, &mut self.bytes, &mut self.made, at, bytes) {
            Ok(()) => Ok(()),
            Err(_) => {
                self.schedule.fault();
                Err(Failed)
            }
        }
    }

    fn sync(&mut self) -> Result<(), Failed>
        ensures listed { FailsNext self.old.disk.calls → IsErr result }
        ensures unlisted { OnErr result (FailsNext self.old.disk.calls
            ⊎ (self.old.room ≤ length self.old.disk.steps)) }
        ensures synced { OnOk result (self.new.disk ≡ after_sync self.old.disk) }
        ensures not_synced { OnErr result (self.new.disk ≡ after_failed_look self.old.disk) }
        ensures only { OnOk result (Only self.old.disk.held (LeftNow disk_at self.new)) }
        ensures crash { Within (LeftNow disk_at self.new) (LeftNow disk_at self.old) }
        ensures one { OnOk result (length self.new.disk.steps
            ≡ one_more (length self.old.disk.steps)) }
        ensures time { Elapses disk_at self.old self.new }
        ensures cause { HasCause self.old.disk.calls.faults self.new.disk.calls.faults result }
    {
        if self.schedule.begin() {
            self.schedule.fault();
            // Nothing is more synced than before.
            return Err(Failed);
        }
        match note(&mut self.made, Made::Synced) {
            Ok(()) => Ok(()),
            Err(_) => {
                self.schedule.fault();
                Err(Failed)
            }
        }
    }

    fn moment(&self, _key: &Key) -> u64 {
        self.made.len() as u64
    }

    fn faults(&self) -> u64 {
        self.schedule.faults()
    }
}
