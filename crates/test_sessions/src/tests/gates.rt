//! A gate that watches sessions.

use crate::tests::desk::hint_of;
use liq_sessions::Gate;
use liq_types::Hint;
use std::sync::atomic::{AtomicBool, AtomicU64, Ordering};

/// The four steps of a call.
pub const ENTER: u64 = 0;

pub const HINT: u64 = 1;

pub const CALL: u64 = 2;

pub const LEAVE: u64 = 3;

/// Counts the steps of each session, and notes a miss where one comes out of its order.
#[derive(Drop)]
pub struct Watch {
    steps: [AtomicU64; 9],
    missed: AtomicBool,
}

impl Watch {
    pub fn new() -> Watch {
        Watch {
            steps: [
                AtomicU64::new(0),
                AtomicU64::new(0),
                AtomicU64::new(0),
                AtomicU64::new(0),
                AtomicU64::new(0),
                AtomicU64::new(0),
                AtomicU64::new(0),
                AtomicU64::new(0),
                AtomicU64::new(0),
            ],
            missed: AtomicBool::new(false),
        }
    }

    /// Notes a session's step. Answers how many calls it made before this one.
    pub fn step(&self, session: u8, kind: u64) -> u64 {
        let Some(steps) = self.steps.get(session as usize) else {
            self.missed.store(true, Ordering::SeqCst);
            return 0;
        };
        let before = steps.fetch_add(1, Ordering::SeqCst);
        if before % 4 != kind {
            self.missed.store(true, Ordering::SeqCst);
        }
        before / 4
    }

    /// How many steps a session made.
    pub fn steps(&self, session: u8) -> u64 {
        match self.steps.get(session as usize) {
            Some(steps) => steps.load(Ordering::SeqCst),
            None => 0,
        }
    }

    /// Whether a step came out of its order.
    pub fn has_missed(&self) -> bool {
        self.missed.load(Ordering::SeqCst)
    }

    /// Notes a miss where the two places differ.
    fn compare(&self, before: u64, index: u32) {
        if u64::from(index) != before % u64::MAX + 1 {
            self.missed.store(true, Ordering::SeqCst);
        }
    }

    /// Notes a miss where the hint is not the one of this call.
    pub fn compare_hint(&self, session: u8, index: u64, hint: &Hint) {
        if *hint != hint_of(session, index) {
            self.missed.store(true, Ordering::SeqCst);
        }
    }
}

impl Gate for Watch {
    fn enter(&self, session: u8, index: u32) {
        let before = self.step(session, ENTER);
        self.compare(before, index);
    }

    fn leave(&self, session: u8, index: u32, hint: &Hint) {
        let before = self.step(session, LEAVE);
        self.compare(before, index);
        self.compare_hint(session, u64::from(index), hint);
    }
}
