//! A place in C's memory, of 32 bytes, where a market may be: its pointer, and the mark that it is
//! there.

ghost use Rattle.std.specs.Prelude.{◌≡◌, ◌==◌, Some, None, MatchOption};
ghost use Rattle.liq_c.specs.declared.marks.TheConstants.{OPEN};
ghost use Rattle.liq_c.specs.Held.{is_full};

use crate::inside::Inside;
use crate::loose::Loose;
use crate::marks::OPEN;
use liq_market::Market;
use std::alloc::Global;
use std::marker::Send;

/// Where it is all zero, no market is in it.
#[repr(C)]
pub struct Slot {
    pub inside: Inside,
    state: u64,
    // C keeps room for them.
    reserved: [u64; 2],
    ghost tie: { (state == OPEN) ≡ is_full inside.held },
}

// Whatever was in a place is freed as soon as the place is written or let go.
impl Drop for Slot {
    fn drop(self) {
        drop(self.into_market());
    }
}

// C may hand a place to another thread. That its type allows it is proved for this call.
fn goes_to_another_thread(slot: &Slot) {
    wants_send(slot);
}

fn wants_send<T: Send>(_: &T) {}

impl Slot {
    /// A place without a market.
    pub fn closed(alloc: Global) -> Slot
        ensures { result.inside.held ≡ None }
    {
        Slot {
            inside: Inside::nothing(alloc),
            state: 0,
            reserved: [0; 2],
        }
    }

    /// A place with a market.
    pub fn of(market: Box<Market>) -> Slot
        ensures { result.inside.held ≡ Some market.value }
    {
        Slot {
            inside: Inside::of(Loose::of(market)),
            state: OPEN,
            reserved: [0; 2],
        }
    }

    /// The market that is in it, if there is one.
    fn into_market(self) -> Option<Box<Market>>
        ensures { MatchOption result
            (self.inside.held ≡ None) (λ b. self.inside.held ≡ Some b.value) }
    {
        let Slot {
            inside,
            state,
            reserved: _,
        } = self;
        if state == OPEN {
            Some(inside.into_loose().into_box())
        } else {
            None
        }
    }

    /// Takes the market out, if there is one.
    pub fn take(&mut self, alloc: Global) -> Option<Box<Market>>
        ensures took { MatchOption result
            (self.old.inside.held ≡ None) (λ b. self.old.inside.held ≡ Some b.value) }
        ensures left { self.new.inside.held ≡ None }
    {
        std::mem::replace(self, Slot::closed(alloc)).into_market()
    }
}
