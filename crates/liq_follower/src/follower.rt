//! A follower: a protocol with its guide, a phase, and the bytes of a header or a record that isn't
//! whole yet.

ghost use Rattle.std.specs.Prelude.{◌≡◌, ◌≤◌, ◌<◌, ◌+◌, ◌-◌, ◌^◌, ◌∷◌, ◌++◌, [], List, ℕ, length, min, take};
ghost use Rattle.std.specs.Prelude.{true, false, None, IfOk, OnErr, OnOk, slice_index};
ghost use Rattle.liq_follower.specs.declared.phase.Phase.TheVariants as phase;
ghost use Rattle.liq_follower.specs.Fed.{AreOver, Completes, EndsWith, GoOn, LackOne};
ghost use Rattle.liq_follower.specs.Following.{Adds, IsFed, IsSomeOf, LacksMemory, StandsBeforeLast, stopped_in};
ghost use Rattle.liq_follower.specs.Judging.{phase_of};

use crate::answers::{Fed, FedEnd};
use crate::header::{Judged, begun_limit, header_size, judge};
use crate::held::{BODY_AND_DIGEST, Held};
use crate::phase::Phase;
use crate::record::take;
use liq_core::Protocol;
use liq_core_hinted::Guided;
use liq_types::NoMemory;
use liq_types::amounts::LIM;
use std::alloc::Global;
use std::marker::Model;

// Up to this count the bytes of one record more can be added without overflow.
const MANY: u64 = u64::MAX - 128;

/// A replica of the protocol that follows a journal's bytes. Each record makes its step once all
/// its bytes are taken and its digest is right.
pub struct Follower {
    alloc: Global,
    guided: Guided,
    phase: Phase,
    held: Held,
    taken: u64,
}

// odd: drop written out
impl Drop for Follower {
    fn drop(self) {
        let Follower {
            alloc: _,
            guided: _,
            phase: _,
            held: _,
            taken: _,
        } = self;
    }
}

impl Model for Follower {
    ghost use Rattle.liq_follower.specs.Following.{Followed};

    ghost Value = { Followed };

    ghost view = { λ f. record {
      core = f.guided;
      phase = f.phase;
      held = f.held;
      taken = f.taken;
    } };
}

impl Follower {
    /// A follower that has taken no byte: its protocol is the opening under the greater limit.
    pub fn new(alloc: Global) -> Follower
        ensures { IsFed [] result }
    {
        Follower {
            alloc,
            guided: Guided::with_limit(alloc, LIM),
            phase: Phase::Start,
            held: Held::new(),
            taken: 0,
        }
    }

    /// The replica. It stands for the state to which the bytes lead that were taken.
    pub fn protocol(&self) -> &Protocol
        ensures { result.now ≡ self.now.core }
    {
        self.guided.protocol()
    }

    /// How many bytes were taken, up to the most that a `u64` holds.
    pub fn taken(&self) -> u64
        ensures { (bytes : List ℕ) → IsFed bytes self.now
            → result ≡ min (length bytes) (2 ^ 64 - 1) }
    {
        self.taken
    }

    /// Takes the bytes of a piece, up to its end or the first byte at which feeding ends, and says
    /// how many.
    ///
    /// - `All`: the whole piece was taken.
    /// - `NoMemory`: the next byte completes a record, and there is no memory for its step. The
    ///   record's digest and form are right, and the rules allow its command, or a list of troves
    ///   is planned for it. That byte isn't taken, the protocol is as it was, and feeding may go on
    ///   from it.
    /// - `Damaged`: the byte that was taken last shows that the record of this number is damaged,
    ///   or the header, whose number is 0. No byte is taken from then on, each feed answers this,
    ///   and the protocol stays at the state before that byte.
    /// - `Rotated`: the header is of this later generation. No byte is taken from then on, and
    ///   each feed answers this.
    ///
    /// Behind a closed gate all bytes are taken and mean nothing.
    pub fn feed(&mut self, piece: &[u8]) -> Fed
        ensures taken { result.taken ≤ length piece.now }
        ensures fed { (bytes : List ℕ) → IsFed bytes self.old
            → IsFed (bytes ++ take result.taken piece.now) self.new }
        ensures end { (bytes : List ℕ) → IsFed bytes self.old
            → EndsWith result.end (bytes ++ take result.taken piece.now) }
        ensures all { result.end ≡ FedEnd.All → result.taken ≡ length piece.now }
        ensures memory { result.end ≡ FedEnd.NoMemory → result.taken < length piece.now }
        ensures right { result.end ≡ FedEnd.NoMemory → (bytes : List ℕ) → IsFed bytes self.old
            → Completes (slice_index piece.now result.taken) (bytes
            ++ take result.taken piece.now) }
        ensures over { (bytes : List ℕ) → IsFed bytes self.old → AreOver bytes → result.taken ≡ 0 }
        ensures stays { (bytes : List ℕ) → IsFed bytes self.old → AreOver bytes
            → self.new ≡ self.old }
        ensures again { (bytes : List ℕ) → IsFed bytes self.old → AreOver bytes → (e : FedEnd)
            → EndsWith e bytes
            → result.end ≡ e }
        ensures first { (bytes : List ℕ) → IsFed bytes self.old
            → AreOver (bytes ++ take result.taken piece.now)
            → StandsBeforeLast (bytes ++ take result.taken piece.now) self.new.core }
    {
        if self.keeps(piece) {
            return Fed {
                taken: piece.len(),
                end: FedEnd::All,
            };
        }
        let mut taken = 0;
        while taken < piece.len() {
            if let Some(end) = self.stopped() {
                return Fed { taken, end };
            }
            match self.advance(&piece[taken..]) {
                Ok(count) => taken += count,
                Err(NoMemory) => {
                    let end = FedEnd::NoMemory;
                    return Fed { taken, end };
                }
            }
        }
        let end = self.stopped().unwrap_or(FedEnd::All);
        Fed { taken, end }
    }

    // Takes the whole piece where it is inside a record and doesn't reach the record's last byte,
    // and says whether it did. Otherwise nothing is taken. So a feed of one byte costs little.
    fn keeps(&mut self, piece: &[u8]) -> bool
        ensures inside { result ≡ true → (self.old.phase ≡ phase.Inside)
            × (self.new.phase ≡ phase.Inside) }
        ensures fed { result ≡ true → (bytes : List ℕ) → IsFed bytes self.old
            → IsFed (bytes ++ take (length piece.now) piece.now) self.new }
        ensures stays { result ≡ false → self.new ≡ self.old }
    {
        if !self.fits(piece.len()) {
            return false;
        }
        self.keep(piece);
        self.tally_few(piece.len());
        true
    }

    // Whether so many bytes more are inside a record and don't reach its last byte. The answer is
    // `false` too where the count of bytes is near its last value.
    fn fits(&self, count: usize) -> bool
        ensures inside { result ≡ true → self.now.phase ≡ phase.Inside }
        ensures room { result ≡ true → length self.now.held + count < 128 }
        ensures few { result ≡ true → self.now.taken + count < 2 ^ 64 }
    {
        match self.phase {
            Phase::Inside => count < BODY_AND_DIGEST - self.held.len() && self.taken < MANY,
            _ => false,
        }
    }

    // Keeps some bytes of a record, without counting.
    fn keep(&mut self, piece: &[u8])
        requires inside { self.old.phase ≡ phase.Inside }
        requires room { length self.old.held + length piece.now < 128 }
        ensures at { Adds self.old piece.now self.new }
        ensures added { self.new ≡ record self.old { held = self.old.held ++ piece.now } }
    {
        self.held.extend(piece);
    }

    // How feeding has ended for good, if it has.
    fn stopped(&self) -> Option<FedEnd>
        ensures { result ≡ stopped_in self.now.phase }
    {
        match self.phase {
            Phase::Damaged { index } => Some(FedEnd::Damaged { index }),
            Phase::Rotated { generation } => Some(FedEnd::Rotated { generation }),
            _ => None,
        }
    }

    // Takes some bytes of a piece, and says how many. None is taken where there is no memory for
    // what the first one completes.
    fn advance(&mut self, piece: &[u8]) -> Result<usize, NoMemory>
        requires some { 1 ≤ length piece.now }
        requires goes { stopped_in self.old.phase ≡ None }
        ensures going { (bytes : List ℕ) → IsFed bytes self.old → GoOn bytes }
        ensures count { IfOk result (IsSomeOf piece.now) }
        ensures fed { IfOk result (λ n. (bytes : List ℕ) → IsFed bytes self.old
            → IsFed (bytes ++ take n piece.now) self.new) }
        ensures memory { OnErr result ((bytes : List ℕ) → IsFed bytes self.old
            → IsFed bytes self.new × LackOne bytes × Completes (slice_index piece.now 0) bytes) }
    {
        match self.take(piece) {
            Ok(count) => {
                self.tally(count);
                Ok(count)
            }
            Err(NoMemory) => Err(NoMemory),
        }
    }

    // Counts bytes that were taken.
    fn tally(&mut self, count: usize)
        ensures { self.new ≡ record self.old {
          taken = min (self.old.taken + count) (2 ^ 64 - 1);
        } }
    {
        self.taken = self.taken.saturating_add(count as u64);
    }

    // Counts bytes after which the count is still below its last value: a plain addition.
    fn tally_few(&mut self, count: usize)
        requires few { self.old.taken + count < 2 ^ 64 }
        ensures { self.new ≡ record self.old {
          taken = min (self.old.taken + count) (2 ^ 64 - 1);
        } }
    {
        self.taken += count as u64;
    }

    // Takes bytes without counting them.
    fn take(&mut self, piece: &[u8]) -> Result<usize, NoMemory>
        requires some { 1 ≤ length piece.now }
        requires goes { stopped_in self.old.phase ≡ None }
        ensures count { IfOk result (IsSomeOf piece.now) }
        ensures at { IfOk result (λ n. Adds self.old (take n piece.now) self.new) }
        ensures memory { OnErr result (LacksMemory self.old (slice_index piece.now 0) self.new) }
        ensures taken { self.new.taken ≡ self.old.taken }
    {
        match self.phase {
            Phase::Start => {
                self.start(piece[0]);
                Ok(1)
            }
            Phase::Header => {
                self.header(piece[0]);
                Ok(1)
            }
            Phase::Gate => {
                self.gate(piece[0]);
                Ok(1)
            }
            Phase::Inside => self.inside(piece),
            _ => Ok(piece.len()),
        }
    }

    // Takes the gate of the header.
    fn start(&mut self, byte: u8)
        requires { self.old.phase ≡ phase.Start }
        ensures at { Adds self.old (byte ∷ []) self.new }
        ensures taken { self.new.taken ≡ self.old.taken }
    {
        if byte != 1 {
            self.phase = Phase::Shut;
            return;
        }
        self.held.clear();
        self.held.extend(&[byte]);
        self.phase = Phase::Header;
    }

    // Takes a byte of the header, and tests it once it is whole.
    fn header(&mut self, byte: u8)
        requires { self.old.phase ≡ phase.Header }
        ensures at { Adds self.old (byte ∷ []) self.new }
        ensures taken { self.new.taken ≡ self.old.taken }
    {
        self.held.push(byte);
        let limit = begun_limit(self.held.bytes());
        self.guided.begin_under(self.alloc, limit);
        if self.held.len() == header_size(self.held.bytes()) {
            self.phase = phase_of(judge(self.held.bytes()));
            self.held.clear();
        }
    }

    // Takes the gate of a record.
    fn gate(&mut self, byte: u8)
        requires { self.old.phase ≡ phase.Gate }
        ensures at { Adds self.old (byte ∷ []) self.new }
        ensures taken { self.new.taken ≡ self.old.taken }
    {
        self.held.clear();
        self.phase = if byte == 1 {
            Phase::Inside
        } else {
            Phase::Shut
        };
    }

    // Takes bytes of a record, up to the last but one, or the last one.
    fn inside(&mut self, piece: &[u8]) -> Result<usize, NoMemory>
        requires some { 1 ≤ length piece.now }
        requires inside { self.old.phase ≡ phase.Inside }
        ensures count { IfOk result (IsSomeOf piece.now) }
        ensures at { IfOk result (λ n. Adds self.old (take n piece.now) self.new) }
        ensures memory { OnErr result (LacksMemory self.old (slice_index piece.now 0) self.new) }
        ensures taken { self.new.taken ≡ self.old.taken }
    {
        let missing = BODY_AND_DIGEST - 1 - self.held.len();
        if missing == 0 {
            self.complete(piece[0])?;
            return Ok(1);
        }
        let count = missing.min(piece.len());
        self.keep(&piece[..count]);
        Ok(count)
    }

    // Takes the last byte of a record, tests the record and makes its command's step.
    fn complete(&mut self, last: u8) -> Result<(), NoMemory>
        requires inside { self.old.phase ≡ phase.Inside }
        requires full { length self.old.held ≡ 127 }
        ensures at { OnOk result (Adds self.old (last ∷ []) self.new) }
        ensures memory { OnErr result (LacksMemory self.old last self.new) }
        ensures taken { self.new.taken ≡ self.old.taken }
    {
        let index = self.guided.records().saturating_add(1);
        let raw = self.held.with(last);
        // odd: match for ?
        match take(&mut self.guided, &raw, index) {
            Ok(phase) => {
                self.phase = phase;
                Ok(())
            }
            Err(NoMemory) => Err(NoMemory),
        }
    }
}

// The phase behind a whole header.
fn phase_of(judged: Judged) -> Phase
    ensures { result ≡ phase_of judged }
{
    match judged {
        Judged::Right => Phase::Gate,
        Judged::Turned { generation } => Phase::Rotated { generation },
        Judged::Damaged => Phase::Damaged { index: 0 },
    }
}
