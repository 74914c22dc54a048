//! The checkpoint with which a rotation begins the next generation.
ghost use Rattle.std.specs.Prelude.{◌≡◌, ◌≤◌, ◌+◌, true, length, IfOk};
ghost use Rattle.liq_types.specs.declared.amounts.TheConstants.{GENERATIONS_MOST};
ghost use Rattle.liq_types.specs.declared.requests.Call.TheVariants.{Rotate};
ghost use Rattle.liq_types.specs.State.{State};
ghost use Rattle.liq_core.specs.Core.{StandsFor};
ghost use Rattle.liq_core.specs.Plan.{IsPlannedOn};
ghost use Rattle.liq_journal.specs.Crash.{beginning};
ghost use Rattle.liq_journal.specs.Written.{is_size};
ghost use Rattle.liq_disk_pair.specs.Kept.{IsRotationOf};

use liq_checkpoint::encode;
use liq_core::laws::{protocols_are_sound, protocols_stand};
use liq_core::{Planned, Protocol};
use liq_types::NoMemory;
use std::alloc::Global;

// The bytes of the image after a planned rotation. There may be no memory for them.
pub fn checkpoint_after(
    alloc: Global,
    protocol: &Protocol,
    planned: &Planned,
) -> Result<Vec<u8>, NoMemory>
    requires rotates { planned.now.command.call ≡ Rotate }
    requires planned { IsPlannedOn protocol.now planned.now }
    // A journal that begins with them leads to the state after the rotation.
    ensures rotation { IfOk result (λ bytes. (s : State) → StandsFor protocol.now s
        → IsRotationOf s (beginning (s.generation + 1) bytes.items) planned.now.command) }
    ensures generation { protocol.now.image.generation + 1 ≤ GENERATIONS_MOST }
    ensures size { IfOk result (λ bytes. is_size (protocol.now.image.generation + 1)
        (length bytes.items) ≡ true) }
{
    // odd: law called
    protocols_are_sound(protocol);
    protocols_stand(protocol);
    let image = protocol.image_after(planned)?;
    let bytes = encode(alloc, &image)?;
    Ok(bytes)
}
