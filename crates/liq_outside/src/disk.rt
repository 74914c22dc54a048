//! What keeps bytes by their places, over a stop too: the one trait on which all that is said of
//! crashes rests.
ghost use Rattle.std.specs.Prelude.{◌≡◌, ◌↔◌, ◌≤◌, ◌+◌, ◌-◌, ◌^◌, Option, Some, List, ℕ, min, length, take, drop, option_map, IfOk, OnOk, OnErr, IfSome, IsSome};
ghost use Rattle.liq_outside.specs.At.{DiskAt};
ghost use Rattle.liq_outside.specs.Calls.{one_more};
ghost use Rattle.liq_outside.specs.Disk.{Elapses, Follows, GoesOn, KeepsToItsTime, LeftNow, Looked, Only, Reaches, Torn, Within, overwritten};
ghost use Rattle.liq_outside.specs.Faults.{HasCause};

use super::failed::Failed;
use super::key::Key;
use super::ours::Ours;

/// Keeps bytes by their places, and those that were synced over a stop too.
///
/// A disk has a moment for what a crash may leave: it rises by one with each write or sync that
/// succeeds, and by one at most with a write that fails. A crash leaves what was there at the last
/// sync that answered `Ok`, but in each range that was written since, by a call that failed too,
/// any bytes and any length up to the range's end.
///
/// The disks of this crate are all that there are. What keeps bytes elsewhere is a `Device`, over
/// which `DeviceDisk::over` is a disk.
pub trait Disk: Ours {
    /// What is told of it: what a read gives, the moment, what a crash at each moment may have
    /// left, and how many faults it has met.
    ghost at: { Self → DiskAt };

    /// How many bytes it has.
    fn length(&mut self) -> Result<u64, Failed>
        ensures told { IfOk result (λ n. IfSome (at self.old).seen (λ held. n ≡ length held)) }
        ensures looked { Looked at self.old self.new }
        ensures cause { HasCause (at self.old).faults (at self.new).faults result };

    /// Reads from a place on into the front of `buf`, and says how many bytes: fewer than `buf`
    /// holds only where the disk ends.
    fn read_at(&mut self, place: u64, buf: &mut [u8]) -> Result<usize, Failed>
        ensures fits { IfOk result (λ n. n ≤ length buf.old) }
        ensures told { IfOk result (λ n. IfSome (at self.old).seen (λ held.
            (n ≡ min (length buf.old) (length held - place))
            × (take n buf.new ≡ take n (drop place held)))) }
        ensures looked { Looked at self.old self.new }
        ensures cause { HasCause (at self.old).faults (at self.new).faults result };

    /// Writes bytes over those from a place on, and past the end. Until a sync a crash may leave
    /// any bytes in the range. After `Failed` any part of them may have been written.
    fn write_at(&mut self, place: u64, bytes: &[u8]) -> Result<(), Failed>
        requires inside { IfSome (at self.old).seen (λ held. place ≤ length held) }
        requires limit { place + length bytes.now ≤ 2 ^ 40 }
        ensures written { OnOk result ((at self.new).seen
            ≡ option_map (λ held. overwritten held place bytes.now) (at self.old).seen) }
        ensures telling { IsSome (at self.new).seen ↔ IsSome (at self.old).seen }
        ensures crash { Follows (Torn place (length bytes.now)) (LeftNow at self.old)
            (LeftNow at self.new) }
        ensures noted { OnOk result
            (Reaches (Torn place (length bytes.now)) (LeftNow at self.old) (LeftNow at self.new)) }
        ensures keeps { Within (LeftNow at self.old) (LeftNow at self.new) }
        ensures one { OnOk result ((at self.new).moment ≡ one_more (at self.old).moment) }
        ensures one_at_most { OnErr result ((at self.new).moment ≤ (at self.old).moment + 1) }
        ensures time { Elapses at self.old self.new }
        ensures cause { HasCause (at self.old).faults (at self.new).faults result };

    /// After it, a crash leaves what a read gives. After `Failed` it may leave all that it might
    /// before.
    fn sync(&mut self) -> Result<(), Failed>
        ensures synced { OnOk result (IfSome (at self.old).seen
            (λ held. Only held (LeftNow at self.new))) }
        ensures same { (at self.new).seen ≡ (at self.old).seen }
        ensures crash { Within (LeftNow at self.new) (LeftNow at self.old) }
        ensures unsynced { OnErr result (Within (LeftNow at self.old) (LeftNow at self.new)) }
        ensures one { OnOk result ((at self.new).moment ≡ one_more (at self.old).moment) }
        ensures none { OnErr result ((at self.new).moment ≡ (at self.old).moment) }
        ensures time { Elapses at self.old self.new }
        ensures cause { HasCause (at self.old).faults (at self.new).faults result };

    /// The moment. It is no device call.
    fn moment(&self, key: &Key) -> u64
        ensures { result ≡ (at self.now).moment };

    /// How many faults it has met. It is no device call.
    fn faults(&self) -> u64
        ensures { result ≡ (at self.now).faults };

    /// What a read gives is among what a crash now may leave.
    ghost seen_may_stay: { (disk : Self) (held : List ℕ)
        → (at disk).seen ≡ Some held → LeftNow at disk held };
}

/// The law of moments: where calls on a disk leave its past as it was, as each call and each layer
/// over a disk says, what a crash may have left since some earlier moment was so told before the
/// calls, or is what a crash may have left since they began.
pub fn calls_keep_to_their_time<D: Disk>()
    ensures { (old new : D) → GoesOn D.at old new → KeepsToItsTime D.at old new }
{}
