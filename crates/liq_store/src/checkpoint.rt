//! The protocol with which a journal begins: the opening under its limit where it is of the first
//! generation, else that of its checkpoint.
ghost use Rattle.std.specs.Prelude.{◌≡◌, ◌≢◌, ◌+◌, ◌<◌, ◌^◌, Ok, Err, IfOk};
ghost use Rattle.liq_types.specs.Image.{IsLimit};
ghost use Rattle.liq_types.specs.Soundness.{HasTables};
ghost use Rattle.liq_disk_header.specs.Layout.{header_size, layout_with};
ghost use Rattle.liq_journal.specs.Written.{Written};
ghost use Rattle.liq_disk_pair.specs.Replay.{base_of, read_base};
ghost use Rattle.liq_store.specs.Bases.{BeginsTo};

use liq_checkpoint::{ImageBytes, decode};
use liq_core::laws::protocols_are_sound;
use liq_core::{ImageFault, Protocol};
use liq_core_hinted::Guided;
use liq_disk_records::{AcceptedFault, is_of};
use liq_journal::{Damage, What, header_size};
use liq_types::Image;
use std::alloc::Global;

// The checkpoint of a journal of this limit is damaged: what begins at this place of it, behind the
// header, fits nothing.
fn misshapen(limit: u64, place: u64) -> AcceptedFault
    requires { place < 2 ^ 63 }
    ensures { result ≡ AcceptedFault.Damaged (record {
      index = 0;
      what = What.Form (header_size (layout_with limit) + place);
    }) }
{
    let what = What::Form {
        place: header_size(limit) + place,
    };
    AcceptedFault::Damaged(Damage { index: 0, what })
}

// The protocol with which a journal of this generation and this limit begins. The first one has no
// checkpoint.
pub fn base(
    alloc: Global,
    generation: u64,
    limit: u64,
    checkpoint: &[u8],
) -> Result<Guided, AcceptedFault>
    requires { IsLimit limit }
    ensures begins { (w : Written) → w.generation ≡ generation → w.limit ≡ limit
        → w.checkpoint ≡ checkpoint.now
        → BeginsTo (base_of w) result }
    ensures generation { IfOk result (λ core. core.image.generation ≡ generation) }
    ensures records { IfOk result (λ core. core.records ≡ 0) }
    ensures no_device { result ≢ Err AcceptedFault.DiskFault }
{
    if generation == 1 {
        return Ok(Guided::with_limit(alloc, limit));
    }
    match decode(alloc, checkpoint) {
        Ok(image) => begun(alloc, generation, limit, image),
        Err(ImageBytes::Bad { place }) => Err(misshapen(limit, place)),
        Err(ImageBytes::NoMemory) => Err(AcceptedFault::NoMemory),
    }
}

// The protocol of a checkpoint's image, which has to be that of this generation and this limit.
fn begun(alloc: Global, generation: u64, limit: u64, image: Image) -> Result<Guided, AcceptedFault>
    requires tables { HasTables image }
    ensures begins { (w : Written) → w.generation ≡ generation → w.limit ≡ limit
        → BeginsTo (read_base w (Ok image)) result }
    ensures generation { IfOk result (λ core. core.image.generation ≡ generation) }
    ensures records { IfOk result (λ core. core.records ≡ 0) }
    ensures no_device { result ≢ Err AcceptedFault.DiskFault }
{
    let protocol = match Protocol::from_image(alloc, image) {
        Ok(protocol) => protocol,
        Err(ImageFault::Unsound { .. }) => return Err(misshapen(limit, 0)),
        Err(ImageFault::NoMemory) => return Err(AcceptedFault::NoMemory),
    };
    // odd: law called
    protocols_are_sound(&protocol);
    if !is_of(&protocol, generation, limit) {
        return Err(misshapen(limit, 0));
    }
    match Guided::of(alloc, protocol) {
        Ok(guided) => Ok(guided),
        Err(_) => Err(AcceptedFault::NoMemory),
    }
}
