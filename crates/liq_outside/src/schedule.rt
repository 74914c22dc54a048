//! Which calls of an object in memory fail, and how many did.
ghost use Rattle.std.specs.Prelude.{◌≡◌, ◌≤◌, ◌↔◌, IsTrue};
ghost use Rattle.liq_outside.specs.Calls.{Calls, FailsNext, begun, faulted, not_begun};

use std::marker::Model;

// The calls of an object, counted as they are made. Both counts stay at the last value of a u64.
#[derive(Drop)]
pub struct Schedule {
    failing: Vec<u64>,
    next: u64,
    faults: u64,
}

impl Model for Schedule {
    ghost use Rattle.liq_outside.specs.Calls.{Calls};

    ghost Value = { Calls };

    ghost view = { λ s. record { failing = s.failing.items; next = s.next; faults = s.faults } };
}

impl Schedule {
    pub fn new(failing: Vec<u64>) -> Self
        ensures { result ≡ not_begun failing.items }
    {
        Schedule {
            failing,
            next: 0,
            faults: 0,
        }
    }

    // Begins the next call, and says whether it is one of those that fail.
    pub fn begin(&mut self) -> bool
        ensures fails { IsTrue result ↔ FailsNext self.old }
        ensures begun { self.new ≡ begun self.old }
    {
        let fails = self.failing.contains(&self.next);
        self.next = self.next.saturating_add(1);
        fails
    }

    // Counts a fault of the call that was begun last.
    pub fn fault(&mut self)
        ensures counted { self.new ≡ faulted self.old }
        ensures no_fewer { self.old.faults ≤ self.new.faults }
    {
        self.faults = self.faults.saturating_add(1);
    }

    pub fn faults(&self) -> u64
        ensures { result ≡ self.now.faults }
    {
        self.faults
    }
}
