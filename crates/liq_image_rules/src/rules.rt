//! The rules one after the other.

ghost use Rattle.std.specs.Prelude.{◌≡◌};
ghost use Rattle.liq_types.specs.Soundness.{first_failing, first_unsound};

use crate::backing::is_backed;
use crate::ranges::has_ranges;
use liq_image_rows::{
    has_accounts, has_coll_at_home, has_lusd_at_home, has_sound_clients, has_sound_deposits,
    has_sound_troves, has_sound_words, has_surplus_at_home, has_troves_added_up,
};
use liq_types::Image;

/// The number of the first rule, from 1, that an image breaks beside so many records of its
/// generation, of which a checkpoint has none. `None` is a sound image, where its tables are in
/// form.
pub fn first_unsound(image: &Image, records: u64) -> Option<u8>
    ensures { result ≡ first_unsound image.now records }
{
    let rules = [
        (1, has_ranges(image, records)),
        (2, has_accounts(image)),
        (3, has_coll_at_home(image)),
        (4, has_lusd_at_home(image)),
        (5, has_surplus_at_home(image)),
        (6, has_sound_troves(image)),
        (7, has_troves_added_up(image)),
        (8, is_backed(image)),
        (9, has_sound_words(image, records)),
        (10, has_sound_deposits(image)),
        (11, has_sound_clients(image)),
    ];
    first_failing(&rules)
}

/// The number of the first rule that fails.
fn first_failing(rules: &[(u8, bool)]) -> Option<u8>
    ensures { result ≡ first_failing rules.now }
{
    for (number, holds) in rules {
        if !*holds {
            return Some(*number);
        }
    }
    None
}
