//! Markets put into places, and freed.

ghost use Rattle.std.specs.Prelude.{◌≡◌, ◌≢◌, [], None, IfOk};
ghost use Rattle.liq_types.specs.State.{opening};
ghost use Rattle.liq_core.specs.Core.{SameContent, StandsFor};
ghost use Rattle.liq_c.specs.Exports.{Copies};
ghost use Rattle.liq_c.specs.Held.{Has};
ghost use Rattle.liq_c.specs.declared.statuses.TheConstants.{OK, NO_MEMORY};

use crate::slot::Slot;
use crate::statuses::{NO_MARKET, NO_MEMORY, OK};
use liq_market::Market;
use liq_types::NoMemory;
use std::alloc::Global;

/// Puts a market into a place, as it opens: it has touched nobody. What was in it is freed. Without
/// memory the place is as it was.
#[unsafe(no_mangle)]
pub extern "C" fn liq_open(alloc: Global, slot: &mut Slot) -> u32
    ensures opened { result ≡ OK
        → Has (λ m. StandsFor m.core opening × (m.touched ≡ [])) slot.new.inside.held }
    ensures failed { result ≢ OK
        → (result ≡ NO_MEMORY) × (slot.new.inside.held ≡ slot.old.inside.held) }
{
    match Box::new(alloc, Market::new(alloc)) {
        Ok(market) => {
            *slot = Slot::of(market);
            OK
        }
        Err(_) => NO_MEMORY,
    }
}

/// Frees the market of a place, if there is one.
#[unsafe(no_mangle)]
pub extern "C" fn liq_close(alloc: Global, slot: &mut Slot)
    ensures { slot.new.inside.held ≡ None }
{
    *slot = Slot::closed(alloc);
}

/// Puts the same market into another place; what was in that is freed. Without a market or memory
/// that place is as it was.
#[unsafe(no_mangle)]
pub extern "C" fn liq_fork(alloc: Global, slot: &mut Slot, into: &mut Slot) -> u32
    ensures kept { slot.new.inside.held ≡ slot.old.inside.held }
    ensures forked { Copies slot.old.inside.held into.old.inside.held into.new.inside.held result }
{
    let Some(market) = slot.take(alloc) else {
        return NO_MARKET;
    };
    let fork = forked(alloc, &market);
    *slot = Slot::of(market);
    match fork {
        Ok(fork) => {
            *into = Slot::of(fork);
            OK
        }
        Err(NoMemory) => NO_MEMORY,
    }
}

fn forked(alloc: Global, market: &Market) -> Result<Box<Market>, NoMemory>
    ensures { IfOk result (λ fork.
        SameContent market.now.core fork.value.core × (fork.value.touched ≡ [])) }
{
    match Box::new(alloc, market.fork(alloc)?) {
        Ok(fork) => Ok(fork),
        Err(_) => Err(NoMemory),
    }
}
