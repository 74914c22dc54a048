//! Which key may stand behind the one before it, `last`. A table has each key once.

ghost use Rattle.std.specs.Prelude.{◌≡◌};
ghost use Rattle.liq_disk_layout.specs.Keys.{follows, epoch_follows, place_follows};

/// Whether an account or a client comes behind the last one.
pub fn follows(last: Option<u32>, key: u32) -> bool
    ensures { result ≡ follows last key }
{
    match last {
        None => true,
        Some(last) => last < key,
    }
}

/// Whether a place of this epoch may come behind the last place, an epoch and a scale.
pub fn epoch_follows(last: Option<(u64, u64)>, epoch: u64) -> bool
    ensures { result ≡ epoch_follows last epoch }
{
    match last {
        None => true,
        Some(last) => last.0 <= epoch,
    }
}

/// Whether a place, an epoch and a scale, comes behind the last one.
pub fn place_follows(last: Option<(u64, u64)>, place: (u64, u64)) -> bool
    ensures { result ≡ place_follows last place }
{
    match last {
        None => true,
        Some(last) => last.0 < place.0 || last.0 == place.0 && last.1 < place.1,
    }
}
