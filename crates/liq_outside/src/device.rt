//! What keeps bytes by their places as the system does: a call may do a part of what it is asked.
ghost use Rattle.std.specs.Prelude.{◌≡◌, ◌≤◌, ◌<◌, ◌+◌, ◌-◌, ◌^◌, Option, Some, Ok, List, ℕ, length, take, drop, is_some, IfOk, IfSome, OnOk, OnErr};
ghost use Rattle.liq_outside.specs.Devices.{TellsFailure};
ghost use Rattle.liq_outside.specs.Disk.{overwritten};

use super::failed::Failed;

/// Keeps bytes by their places as the system does: each call is one call of the system, which may
/// do a part of what it is asked.
pub trait Device {
    /// Its bytes, where they are told.
    ghost held: { Self → Option (List ℕ) };

    /// What they were at the last sync, where that is told.
    ghost synced: { Self → Option (List ℕ) };

    /// How many of its calls have failed, where that is told.
    ghost failures: { Self → Option ℕ };

    /// How many bytes it has.
    fn length(&mut self) -> Result<u64, Failed>
        ensures told { IfOk result (λ n. IfSome (held self.old) (λ old. n ≡ length old)) }
        ensures same { held self.new ≡ held self.old }
        ensures kept { synced self.new ≡ synced self.old }
        ensures counted { TellsFailure result (failures self.old) (failures self.new) };

    /// Reads from a place on into the front of `buf`, and says how many bytes. For a buffer that
    /// isn't empty, 0 means that the device ends there.
    fn read_some(&mut self, at: u64, buf: &mut [u8]) -> Result<usize, Failed>
        ensures fits { IfOk result (λ n. n ≤ length buf.old) }
        ensures told { IfOk result (λ n. IfSome (held self.old)
            (λ old. (n ≤ length old - at) × (take n buf.new ≡ take n (drop at old)))) }
        ensures end { result ≡ Ok 0 → 0 < length buf.old
            → IfSome (held self.old) (λ old. length old ≤ at) }
        ensures same { held self.new ≡ held self.old }
        ensures kept { synced self.new ≡ synced self.old }
        ensures counted { TellsFailure result (failures self.old) (failures self.new) };

    /// Writes bytes from the front of `bytes` over those from a place on, and past the end, and
    /// says how many: at least one of a piece that isn't empty. After `Failed` any part of them may
    /// have been written.
    fn write_some(&mut self, at: u64, bytes: &[u8]) -> Result<usize, Failed>
        requires limit { at + length bytes.now ≤ 2 ^ 40 }
        ensures fits { IfOk result (λ n. n ≤ length bytes.now) }
        ensures some { 0 < length bytes.now → IfOk result (λ n. 0 < n) }
        ensures written { IfOk result (λ n. (old : List ℕ) → held self.old ≡ Some old
            → at ≤ length old → held self.new ≡ Some (overwritten old at (take n bytes.now))) }
        ensures telling { is_some (held self.new) ≡ is_some (held self.old) }
        ensures kept { synced self.new ≡ synced self.old }
        ensures counted { TellsFailure result (failures self.old) (failures self.new) };

    /// After it, the bytes are those of the last sync. `Failed` leaves that sync as it was.
    fn sync(&mut self) -> Result<(), Failed>
        ensures synced { OnOk result (synced self.new ≡ held self.old) }
        ensures unsynced { OnErr result (synced self.new ≡ synced self.old) }
        ensures same { held self.new ≡ held self.old }
        ensures counted { TellsFailure result (failures self.old) (failures self.new) };
}
