//! The name that a checkpoint begins with.

ghost use Rattle.std.specs.Prelude.{◌≡◌};
ghost use Rattle.liq_disk_layout.specs.Names.{name};

use liq_types::amounts::LIM;

/// The name of a checkpoint of an image under this limit: `LIQSTAT2` under 10^19, the limit of
/// version 2, and `LIQSTAT1` under any other.
pub fn name(limit: u64) -> [u8; 8]
    ensures { result ≡ name limit }
{
    if limit == LIM {
        *b"LIQSTAT2"
    } else {
        *b"LIQSTAT1"
    }
}
