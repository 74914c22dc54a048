//! The accounts of a market, written into the caller's memory.

ghost use Rattle.std.specs.Prelude.{◌≡◌};
ghost use Rattle.liq_c.specs.Exports.{Lists, ListsAs, list_in};

use crate::slot::Slot;
use crate::statuses::{BAD, Done, NO_MEMORY, OK, SHORT};
use liq_market::{AccountList, Market};
use std::alloc::Global;

/// Writes accounts of a list from an index on, as many as there are places for.
#[unsafe(no_mangle)]
pub extern "C" fn liq_accounts(
    alloc: Global,
    slot: &mut Slot,
    which: u32,
    from: usize,
    accounts: &mut [u32],
) -> Done
    ensures kept { slot.new.inside.held ≡ slot.old.inside.held }
    ensures listed { Lists slot.old.inside.held which from accounts.old accounts.new result }
{
    let Some(market) = slot.take(alloc) else {
        return Done::NONE;
    };
    let done = match list_of(which) {
        Some(list) => write_accounts(&market, list, from, accounts),
        None => Done {
            done: 0,
            status: BAD,
        },
    };
    *slot = Slot::of(market);
    done
}

fn write_accounts(market: &Market, list: AccountList, from: usize, accounts: &mut [u32]) -> Done
    ensures { ListsAs market.now list from accounts.old accounts.new result }
{
    match market.accounts(list, from, accounts) {
        Ok(count) => {
            let left = count.saturating_sub(from as u64);
            let places = accounts.len() as u64;
            Done {
                done: left.min(places) as usize,
                status: if places < left { SHORT } else { OK },
            }
        }
        Err(_) => Done {
            done: 0,
            status: NO_MEMORY,
        },
    }
}

fn list_of(which: u32) -> Option<AccountList>
    ensures { result ≡ list_in which }
{
    match which {
        1 => Some(AccountList::Troves),
        2 => Some(AccountList::Deposits),
        3 => Some(AccountList::Wallets),
        4 => Some(AccountList::Touched),
        _ => None,
    }
}
