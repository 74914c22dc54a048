//! What gives bytes, up to an end or a fault.
ghost use Rattle.std.specs.Prelude.{◌≡◌, Option, ◌≤◌, ◌<◌, [], List, ℕ, length, take, drop, option_map, IfOk, OnErr, IfSome};
ghost use Rattle.liq_outside.specs.At.{SourceAt};
ghost use Rattle.liq_outside.specs.Faults.{HasCause};

use super::failed::Failed;

/// Gives bytes from the front of what is left.
pub trait Source {
    /// What is told of it: the bytes that are left, and how many faults it has met.
    ghost at: { Self → SourceAt };

    /// Takes bytes from the front of what is left into the front of `buf`, and says how many. For a
    /// buffer that isn't empty, 0 means that none are left. `Failed` took none.
    fn read(&mut self, buf: &mut [u8]) -> Result<usize, Failed>
        ensures fits { IfOk result (λ n. n ≤ length buf.old) }
        ensures rest { IfOk result (λ n. (at self.new).left
            ≡ option_map (drop n) (at self.old).left) }
        ensures bytes { IfOk result (λ n. IfSome (at self.old).left
            (λ bytes. (n ≤ length bytes) × (take n buf.new ≡ take n bytes))) }
        ensures end { result ≡ Ok 0 → 0 < length buf.old
            → IfSome (at self.old).left (λ bytes. bytes ≡ []) }
        ensures failed { OnErr result ((at self.new).left ≡ (at self.old).left) }

        // A fault is counted, and nothing else is: neither is anything else answered as one.
        ensures cause { HasCause (at self.old).faults (at self.new).faults result };
}
