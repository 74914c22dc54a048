//! The bytes of a save: a name, the count of the records, the image as a checkpoint spells it, and
//! the SHA-256 of all that is before it.

ghost use Rattle.std.specs.Prelude.{◌≡◌, ◌<◌, ◌^◌, ℕ, List, length, Ok, IfOk, IfSome, IsSomeAnd};
ghost use Rattle.std.specs.Str.{bytes_eq};
ghost use Rattle.liq_types.specs.declared.image.Image.{Image as image};
ghost use Rattle.liq_checkpoint.specs.Reading.{image_at};
ghost use Rattle.liq_market.specs.Saving.{IsSave, digest, sealed, told_with};

use byteorder::{BigEndian, ByteOrder};
use liq_types::NoMemory;
use sha2::{Digest, Sha256};
use std::alloc::Global;

// LIQSNAP1.
const NAME: [u8; 8] = [76, 73, 81, 83, 78, 65, 80, 49];

/// How many bytes stand in front of the checkpoint: the name and the records.
const FRONT: usize = 16;

/// How many bytes a digest has.
const DIGEST: usize = 32;

/// How many bytes a save has beside its checkpoint.
pub(crate) const AROUND: u128 = 48;

/// The save of so many records and the image that this checkpoint is read as.
pub(crate) fn save_of(alloc: Global, records: u64, checkpoint: &[u8]) -> Result<Vec<u8>, NoMemory>
    ensures { IfOk result (λ bytes. (i : image)
        → image_at (length checkpoint.now) checkpoint.now ≡ Ok i → IsSave bytes.items i records) }
{
    let mut count = [0; 8];
    BigEndian::write_u64(&mut count, records);
    let mut bytes = Vec::new(alloc);
    bytes.extend_from_slice(&NAME)?;
    bytes.extend_from_slice(&count)?;
    bytes.extend_from_slice(checkpoint)?;
    let digest = digest_of(&bytes);
    bytes.extend_from_slice(&digest)?;
    Ok(bytes)
}

/// The records and the checkpoint of which these bytes are the save, if they are one.
pub(crate) fn read_saved(bytes: &[u8]) -> Option<(u64, &[u8])>
    ensures found { IfSome result (λ r. bytes.now ≡ sealed (told_with r.0 r.1.now)) }
    ensures fits { IfSome result (λ r. r.0 < 2 ^ 64) }
    ensures only { (records : ℕ) (checkpoint : List ℕ) → records < 2 ^ 64
        → bytes.now ≡ sealed (told_with records checkpoint)
        → IsSomeAnd result (λ r. (r.0 ≡ records) × (r.1.now ≡ checkpoint)) }
{
    taken_apart(unsealed(bytes)?)
}

/// What stands in front of a digest that is its own.
fn unsealed(bytes: &[u8]) -> Option<&[u8]>
    ensures found { IfSome result (λ told. bytes.now ≡ sealed told.now) }
    ensures only { (told : List ℕ) → bytes.now ≡ sealed told
        → IsSomeAnd result (λ r. r.now ≡ told) }
{
    if bytes.len() < DIGEST {
        return None;
    }
    let (told, digest) = bytes.split_at(bytes.len() - DIGEST);
    if !is_digest(told, digest) {
        return None;
    }
    Some(told)
}

/// Whether these bytes are the digest of what is told.
fn is_digest(told: &[u8], bytes: &[u8]) -> bool
    ensures { result ≡ bytes_eq bytes.now (digest told.now) }
{
    bytes == digest_of(told).as_slice()
}

/// The records, and the checkpoint behind them, of what begins with the name of a save.
fn taken_apart(told: &[u8]) -> Option<(u64, &[u8])>
    ensures found { IfSome result (λ r. told.now ≡ told_with r.0 r.1.now) }
    ensures fits { IfSome result (λ r. r.0 < 2 ^ 64) }
    ensures only { (records : ℕ) (checkpoint : List ℕ) → records < 2 ^ 64
        → told.now ≡ told_with records checkpoint
        → IsSomeAnd result (λ r. (r.0 ≡ records) × (r.1.now ≡ checkpoint)) }
{
    if told.len() < FRONT {
        return None;
    }
    let (name, rest) = told.split_at(8);
    if name != NAME.as_slice() {
        return None;
    }
    Some((BigEndian::read_u64(rest), &rest[8..]))
}

#[tactic(auto, unfolding(crate::specs::Saving::digest))]
fn digest_of(bytes: &[u8]) -> [u8; 32]
    ensures { result ≡ digest bytes.now }
{
    Sha256::digest(bytes)
}
