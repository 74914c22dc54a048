//! Markets saved as bytes and loaded.

ghost use Rattle.std.specs.Prelude.{◌≡◌, ◌-◌, ◌^◌, length, min, MatchOption};
ghost use Rattle.liq_c.specs.Exports.{Loads, Saves, SavesAs, save_of};

use crate::slot::Slot;
use crate::statuses::{BAD, NO_MARKET, NO_MEMORY, OK, SHORT};
use liq_market::{LoadFault, Market};
use std::alloc::Global;

/// How many bytes [`liq_save`] writes; 0 without a market.
#[unsafe(no_mangle)]
pub extern "C" fn liq_save_size(alloc: Global, slot: &mut Slot) -> usize
    ensures kept { slot.new.inside.held ≡ slot.old.inside.held }
    ensures size { MatchOption slot.old.inside.held (result ≡ 0)
        (λ m. result ≡ min (length (save_of m)) (2 ^ 64 - 1)) }
{
    let Some(market) = slot.take(alloc) else {
        return 0;
    };
    let size = market.saved_length().min(usize::MAX as u128) as usize;
    *slot = Slot::of(market);
    size
}

/// Writes the save of a market, where there is room for all of it. The market is as it was.
#[unsafe(no_mangle)]
pub extern "C" fn liq_save(alloc: Global, slot: &mut Slot, bytes: &mut [u8]) -> u32
    ensures kept { slot.new.inside.held ≡ slot.old.inside.held }
    ensures saved { Saves slot.old.inside.held bytes.old bytes.new result }
{
    let Some(market) = slot.take(alloc) else {
        return NO_MARKET;
    };
    let status = write_save(alloc, &market, bytes);
    *slot = Slot::of(market);
    status
}

/// Puts the market of a save into a place; what was in it is freed. Where there is none the place
/// is as it was.
#[unsafe(no_mangle)]
pub extern "C" fn liq_load(alloc: Global, slot: &mut Slot, bytes: &[u8]) -> u32
    ensures { Loads bytes.now slot.old.inside.held slot.new.inside.held result }
{
    match Market::load(alloc, bytes) {
        Ok(market) => match Box::new(alloc, market) {
            Ok(market) => {
                *slot = Slot::of(market);
                OK
            }
            Err(_) => NO_MEMORY,
        },
        Err(LoadFault::Damaged) | Err(LoadFault::Unsound { .. }) => BAD,
        Err(LoadFault::NoMemory) => NO_MEMORY,
    }
}

fn write_save(alloc: Global, market: &Market, bytes: &mut [u8]) -> u32
    ensures { SavesAs (save_of market.now) bytes.old bytes.new result }
{
    if market.saved_length() > bytes.len() as u128 {
        return SHORT;
    }
    match market.save(alloc) {
        Ok(save) => {
            bytes[..save.len()].copy_from_slice(&save);
            OK
        }
        Err(_) => NO_MEMORY,
    }
}
