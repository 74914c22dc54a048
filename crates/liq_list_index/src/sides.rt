//! The accounts next to a place, on either side. The place's own account is passed over, since it
//! may stand there still, under this key or another; it stands once at most, so that one entry
//! further is far enough.

ghost use Rattle.std.specs.Prelude.{◌≡◌, ℤ, ◌<ℤ◌, None};
ghost use Rattle.liq_types.specs.Ranked as ranked;
ghost use Rattle.liq_types.specs.Ranked.{IsAscending};
ghost use Rattle.liq_list_index.specs.declared.sides.Side.TheVariants.{Before, After};
ghost use Rattle.liq_list_index.specs.Rows.{StandOnce};
ghost use Rattle.liq_list_index.specs.Sides.{account_aside, entry_beside, past_own};

use crate::entry_sets::{EntrySets, WideEntry};

#[derive(Clone, Copy)]
pub(crate) enum Side {
    Before,
    After,
}

// The accounts that stand next to a place, its own aside.
pub(crate) fn accounts_aside(places: &EntrySets, place: WideEntry) -> (Option<u32>, Option<u32>)
    requires ascending { IsAscending places.now }
    requires once { StandOnce places.now }
    ensures { result ≡ (
      account_aside Before places.now place,
      account_aside After places.now place,
    ) }
{
    let (before, after) = places.beside(place);
    (
        past_own(places, before, place.1, Side::Before),
        past_own(places, after, place.1, Side::After),
    )
}

// The first account of all but one.
pub(crate) fn first_account(places: &EntrySets, aside: u32) -> Option<u32>
    requires ascending { IsAscending places.now }
    requires once { StandOnce places.now }
    ensures prev { (key : ℤ) → key <ℤ i128.MIN → account_aside Before places.now (key, aside)
        ≡ None }
    ensures next { (key : ℤ) → key <ℤ i128.MIN → result ≡ account_aside After places.now (
      key,
      aside,
    ) }
{
    past_own(places, places.first(), aside, Side::After)
}

// The account of an entry that was found, or, where that is one's own, of the next one on that
// side.
fn past_own(places: &EntrySets, found: Option<WideEntry>, own: u32, side: Side) -> Option<u32>
    ensures { result ≡ past_own side places.now own found }
{
    match found {
        Some(entry) if entry.1 == own => account_of(entry_beside(places, entry, side)),
        other => account_of(other),
    }
}

fn entry_beside(places: &EntrySets, place: WideEntry, side: Side) -> Option<WideEntry>
    ensures { result ≡ entry_beside side places.now place }
{
    let (before, after) = places.beside(place);
    match side {
        Side::Before => before,
        Side::After => after,
    }
}

fn account_of(entry: Option<WideEntry>) -> Option<u32>
    ensures { result ≡ ranked.account_of entry }
{
    match entry {
        Some((_, account)) => Some(account),
        None => None,
    }
}
