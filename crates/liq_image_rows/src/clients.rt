//! Rule 11: the replies that are kept.

ghost use Rattle.std.specs.Prelude.{◌≡◌};
ghost use Rattle.liq_types.specs.ImageRows.{client_row};
ghost use Rattle.liq_types.specs.Soundness.{has_sound_clients, is_sound_client};

use liq_types::{ClientRow, Image, value_count};

/// Rule 11: whether each client's values past those of its kind are 0.
pub fn has_sound_clients(image: &Image) -> bool
    ensures { result ≡ has_sound_clients image.now }
{
    image.clients.rows().iter().all(is_sound)
}

fn is_sound(row: &ClientRow) -> bool
    ensures { result ≡ is_sound_client (client_row row.now).1 }
{
    row.values
        .iter()
        .skip(value_count(row.kind))
        .all(|value| *value == 0)
}
