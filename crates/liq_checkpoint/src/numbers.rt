//! Numbers read from the front of bytes. `end` is how many bytes there are in all, so that a fault
//! can be told by its place.

ghost use Rattle.std.specs.Prelude.{◌≡◌, ◌-◌, length};
ghost use Rattle.liq_checkpoint.specs.declared.image_bytes.ImageBytes.TheVariants.{Bad};
ghost use Rattle.liq_checkpoint.specs.Reading.{Gives, limit_at, number_at, numbers_at};

use crate::image_bytes::ImageBytes;
use byteorder::{BigEndian, ByteOrder};
use liq_disk_layout::place_of;
use liq_types::amounts::{LIM, LIM_OF_VERSION_1};

// What begins here fits no checkpoint.
pub fn bad(end: u64, at: &[u8]) -> ImageBytes
    ensures { result ≡ Bad (end - length at.now) }
{
    ImageBytes::Bad {
        place: place_of(end, at),
    }
}

#[tactic(auto, unfolding(crate::specs::Reading::number_at))]
pub fn u8_at(end: u64, at: &[u8]) -> Result<(u8, &[u8]), ImageBytes>
    ensures { Gives (λ x. (x.0, x.1.now)) result (number_at end 1 at.now) }
{
    if at.is_empty() {
        return Err(ImageBytes::Bad { place: end });
    }
    let (front, rest) = at.split_at(1);
    Ok((front[0], rest))
}

#[tactic(auto, unfolding(crate::specs::Reading::number_at))]
pub fn u32_at(end: u64, at: &[u8]) -> Result<(u32, &[u8]), ImageBytes>
    ensures { Gives (λ x. (x.0, x.1.now)) result (number_at end 4 at.now) }
{
    if at.len() < 4 {
        return Err(ImageBytes::Bad { place: end });
    }
    Ok((BigEndian::read_u32(at), &at[4..]))
}

#[tactic(auto, unfolding(crate::specs::Reading::number_at))]
pub fn u64_at(end: u64, at: &[u8]) -> Result<(u64, &[u8]), ImageBytes>
    ensures { Gives (λ x. (x.0, x.1.now)) result (number_at end 8 at.now) }
{
    if at.len() < 8 {
        return Err(ImageBytes::Bad { place: end });
    }
    Ok((BigEndian::read_u64(at), &at[8..]))
}

#[tactic(auto, unfolding(crate::specs::Reading::number_at))]
pub fn u128_at(end: u64, at: &[u8]) -> Result<(u128, &[u8]), ImageBytes>
    ensures { Gives (λ x. (x.0, x.1.now)) result (number_at end 16 at.now) }
{
    if at.len() < 16 {
        return Err(ImageBytes::Bad { place: end });
    }
    Ok((BigEndian::read_u128(at), &at[16..]))
}

// The limit for which the checkpoint's name stands: LIQSTAT1 or LIQSTAT2.
#[tactic(auto, unfolding(crate::specs::Reading::limit_at))]
pub fn limit_at(end: u64, at: &[u8]) -> Result<(u64, &[u8]), ImageBytes>
    ensures { Gives (λ x. (x.0, x.1.now)) result (limit_at end at.now) }
{
    if at.len() < 8 {
        return Err(ImageBytes::Bad { place: end });
    }
    let (name, rest) = at.split_at(8);
    if name == b"LIQSTAT2".as_slice() {
        return Ok((LIM, rest));
    }
    if name == b"LIQSTAT1".as_slice() {
        return Ok((LIM_OF_VERSION_1, rest));
    }
    Err(bad(end, at))
}

// So many numbers of eight bytes.
pub fn numbers_at<const N: usize>(end: u64, at: &[u8]) -> Result<([u64; N], &[u8]), ImageBytes>
    ensures { Gives (λ x. (x.0, x.1.now)) result (numbers_at end N at.now) }
{
    let mut numbers = [0; N];
    let mut rest = at;
    for i in 0..N {
        let (number, after) = u64_at(end, rest)?;
        numbers[i] = number;
        rest = after;
    }
    Ok((numbers, rest))
}
