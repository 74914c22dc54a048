//! Gates that keep what sessions' calls were hinted by, and one of which holds first calls back.

use liq_sessions::Gate;
use liq_types::Hint;
use std::alloc::{AllocError, Global};
use std::sync::atomic::{AtomicBool, AtomicU64, Ordering};
use std::thread;

/// How often a call that is held looks whether it may go on.
const TURNS: u32 = 10_000_000;

/// Which first calls are held back.
#[derive(Clone, Copy)]
pub enum Holds {
    /// That of one session, until a call of another has left.
    Until { held: u8, other: u8, index: u32 },
    /// Those of so many sessions, until all of them have entered.
    All(u64),
}

/// The hint that a call was made with: its version, and the account on each side, as a number: 0
/// where it is absent, and else one more.
#[derive(Drop)]
pub struct Hinted {
    pub version: AtomicU64,
    pub prev: AtomicU64,
    pub next: AtomicU64,
}

/// A side of a hint as a number.
fn side(account: Option<u32>) -> u64 {
    match account {
        Some(account) => u64::from(account) + 1,
        None => 0,
    }
}

impl Hinted {
    fn new() -> Hinted {
        Hinted {
            version: AtomicU64::new(u64::MAX),
            prev: AtomicU64::new(u64::MAX),
            next: AtomicU64::new(u64::MAX),
        }
    }

    fn keep(&self, hint: &Hint) {
        self.version.store(hint.version, Ordering::SeqCst);
        self.prev.store(side(hint.prev), Ordering::SeqCst);
        self.next.store(side(hint.next), Ordering::SeqCst);
    }
}

/// Holds calls back, and keeps the hints of the first two calls of sessions 1 and 2. After many
/// turns it lets a call through and notes a miss.
#[derive(Drop)]
pub struct Waiting {
    holds: Holds,
    /// How many calls came of those that are waited for.
    arrived: AtomicU64,
    missed: AtomicBool,
    pub first: [Hinted; 2],
    pub second: [Hinted; 2],
}

impl Waiting {
    pub fn new(holds: Holds) -> Waiting {
        Waiting {
            holds,
            arrived: AtomicU64::new(0),
            missed: AtomicBool::new(false),
            first: [Hinted::new(), Hinted::new()],
            second: [Hinted::new(), Hinted::new()],
        }
    }

    /// 1 where a call was let through that waited for nothing.
    pub fn missed(&self) -> u64 {
        u64::from(self.missed.load(Ordering::SeqCst))
    }

    /// Stays until so many calls came.
    fn stay(&self, calls: u64) {
        for _ in 0..TURNS {
            if self.arrived.load(Ordering::SeqCst) >= calls {
                return;
            }
            thread::yield_now();
        }
        self.missed.store(true, Ordering::SeqCst);
    }

    /// Where the hint of a call is kept, if it is one of the four.
    fn hinted(&self, session: u8, index: u32) -> Option<&Hinted> {
        match (session, index) {
            (1, 1) => Some(&self.first[0]),
            (1, 2) => Some(&self.first[1]),
            (2, 1) => Some(&self.second[0]),
            (2, 2) => Some(&self.second[1]),
            _ => None,
        }
    }
}

impl Gate for Waiting {
    fn enter(&self, session: u8, index: u32) {
        match self.holds {
            Holds::All(sessions) if index == 1 => {
                self.arrived.fetch_add(1, Ordering::SeqCst);
                self.stay(sessions);
            }
            Holds::Until { held, .. } if index == 1 && session == held => self.stay(1),
            _ => {}
        }
    }

    fn leave(&self, session: u8, index: u32, hint: &Hint) {
        if let Some(hinted) = self.hinted(session, index) {
            hinted.keep(hint);
        }
        match self.holds {
            Holds::Until {
                other,
                index: awaited,
                ..
            } if session == other && index == awaited => {
                self.arrived.fetch_add(1, Ordering::SeqCst);
            }
            _ => {}
        }
    }
}

/// Lets every call through at once, and keeps by which version of the list each call of the one
/// session is hinted.
#[derive(Drop)]
pub struct Versions {
    hinted: Vec<AtomicU64>,
}

impl Versions {
    /// For so many calls.
    pub fn new(alloc: Global, calls: usize) -> Result<Versions, AllocError> {
        let mut hinted = Vec::new(alloc);
        for _ in 0..calls {
            hinted.push(AtomicU64::new(u64::MAX))?;
        }
        Ok(Versions { hinted })
    }

    /// The version of each call, in their order.
    pub fn hinted(&self) -> &[AtomicU64] {
        &self.hinted
    }
}

impl Gate for Versions {
    fn enter(&self, _session: u8, _index: u32) {}

    fn leave(&self, _session: u8, index: u32, hint: &Hint) {
        let before = (index as usize).wrapping_sub(1);
        if let Some(version) = self.hinted.get(before) {
            version.store(hint.version, Ordering::SeqCst);
        }
    }
}
