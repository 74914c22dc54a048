//! What C holds of a market.

ghost use Rattle.std.specs.Prelude.{◌≡◌, true, Option, Some, None};
ghost use Rattle.std.specs.Coded.{coded_option};
ghost use Rattle.std_heap.specs.contracts.GlobalAllocator.TheImpl.{ghosts};
ghost use Rattle.liq_market.specs.Content.{Content};
ghost use Rattle.liq_market.specs.contracts.market.Market.{the_row as market};
ghost use Rattle.liq_c.specs.Held.{holds, is_full};

use crate::loose::Loose;
use liq_market::Market;
use std::alloc::Global;
use std::marker::{Model, Send};

#[repr(C)]
#[derive(Drop)]
pub struct Inside {
    // No type is named: what C holds may not lead to one that it cannot have.
    at: *mut u8,
    alloc: Global,
    pub ghost held: { Option Content } by { coded_option market.coded },
}

impl Model for Inside {
    ghost also_owns = { λ l. holds (ghosts.dealloc_token l.alloc) market l.at l.held };
}

// It may go from thread to thread, as the box may.
unsafe impl Send for Inside {}

impl Inside {
    /// An `Inside` that holds nothing.
    pub fn nothing(alloc: Global) -> Inside
        ensures { result.held ≡ None }
    {
        let at = std::ptr::null_mut();
        Inside { at, alloc }
    }

    /// Holds the market of a box.
    pub fn of(inside: Loose<Market, Global>) -> Inside
        ensures { result.held ≡ Some inside.value }
    {
        let Loose { at, alloc } = inside;
        Inside {
            at: at as *mut u8,
            alloc,
        }
    }

    /// The market that it holds, in its box.
    pub fn into_loose(self) -> Loose<Market, Global>
        requires { is_full self.held ≡ true }
        ensures { self.held ≡ Some result.value }
    {
        let Inside { at, alloc } = self;
        Loose {
            at: at as *mut Market,
            alloc,
        }
    }
}
