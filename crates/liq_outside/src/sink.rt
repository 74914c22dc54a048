//! What takes bytes, one behind the other, and is shown two disks.
ghost use Rattle.std.specs.Prelude.{◌≡◌, Option, ◌≤◌, ◌<◌, ◌++◌, List, ℕ, length, take, option_map, IfOk, OnErr};
ghost use Rattle.liq_outside.specs.At.{SinkAt};
ghost use Rattle.liq_outside.specs.Faults.{HasCause};
ghost use Rattle.liq_outside.specs.Showings.{Notes};

use super::disk::Disk;
use super::failed::Failed;

/// Takes bytes to the end of what it holds.
pub trait Sink {
    /// What is told of it: the bytes that it holds, what it was shown, and how many faults it has
    /// met.
    ghost at: { Self → SinkAt };

    /// It is shown two disks as they are now, so that what they hold is told beside what it holds.
    /// It is no call that may fail.
    fn show<D: Disk>(&mut self, left: &D, right: &D)
        ensures same { at self.new ≡ record (at self.old) { shown = (at self.new).shown } }
        ensures shown { Notes D.at (at self.old).held left.now right.now (at self.old).shown
            (at self.new).shown };

    /// Appends bytes from the front of `bytes`, and says how many: at least one of a piece that
    /// isn't empty. `Failed` appended none.
    fn write(&mut self, bytes: &[u8]) -> Result<usize, Failed>
        ensures fits { IfOk result (λ n. n ≤ length bytes.now) }
        ensures some { 0 < length bytes.now → IfOk result (λ n. 0 < n) }
        ensures appended { IfOk result (λ n. (at self.new).held
            ≡ option_map (λ old. old ++ take n bytes.now) (at self.old).held) }
        ensures failed { OnErr result ((at self.new).held ≡ (at self.old).held) }
        ensures unshown { (at self.new).shown ≡ (at self.old).shown }

        // A fault is counted, and nothing else is: neither is anything else answered as one.
        ensures cause { HasCause (at self.old).faults (at self.new).faults result };
}
