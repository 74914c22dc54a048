//! Which of two journals goes on, and with which protocol a journal may begin.
ghost use Rattle.std.specs.Prelude.{◌≡◌, ◌==◌, ◌&&◌};
ghost use Rattle.liq_disk_records.specs.Choosing.{later_side};

use liq_core::Protocol;
use liq_core_hinted::Guided;
use liq_disk_pair::Side;

/// Of two journals the one that is taken: that of the greater generation.
pub fn later_side(left: &Guided, right: &Guided) -> Side
    ensures { result ≡ later_side left.now.image.generation right.now.image.generation }
{
    if left.generation() < right.generation() {
        Side::Right
    } else {
        Side::Left
    }
}

/// Whether the protocol is of this generation and of this limit.
pub fn is_of(protocol: &Protocol, generation: u64, limit: u64) -> bool
    ensures { result ≡ (protocol.now.image.generation == generation && protocol.now.image.limit
        == limit) }
{
    protocol.generation() == generation && protocol.limit() == limit
}
