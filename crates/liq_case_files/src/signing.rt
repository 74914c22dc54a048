//! Digests in a journal, made true of what it holds.

use crate::misread::Misread;
use sha2::{Digest, Sha256};

/// The bytes of a digest.
const DIGEST: usize = 32;

/// The bytes of a command.
const BODY: usize = 96;

/// The bytes of a record with its gate.
const RECORD_BYTES: usize = 129;

/// Makes the digest true of the record of this number, or of the header and the checkpoint where it
/// is 0.
pub fn sign(held: &mut [u8], index: u64) -> Result<(), Misread> {
    if index == 0 {
        sign_header(held)
    } else {
        sign_record(held, index)
    }
}

fn sign_header(held: &mut [u8]) -> Result<(), Misread> {
    let place = digest_place(held);
    let size = number_at(held, 17)? as usize;
    let mut hasher = Sha256::new();
    hasher.update(part(held, 1, place.saturating_sub(1))?);
    hasher.update(part(held, place.saturating_add(DIGEST), size)?);
    put(held, place, &hasher.finalize())
}

fn sign_record(held: &mut [u8], index: u64) -> Result<(), Misread> {
    let size = number_at(held, 17)? as usize;
    let first = digest_place(held)
        .saturating_add(DIGEST)
        .saturating_add(size);
    let before = (index as usize).saturating_sub(1);
    let body = first
        .saturating_add(RECORD_BYTES.saturating_mul(before))
        .saturating_add(1);
    let mut hasher = Sha256::new();
    hasher.update(part(held, 9, 8)?);
    hasher.update(&index.to_be_bytes());
    hasher.update(part(held, body, BODY)?);
    put(held, body.saturating_add(BODY), &hasher.finalize())
}

/// Where the header has its digest: in version 2 the limit stands in front of it.
fn digest_place(held: &[u8]) -> usize {
    if held.get(8).copied() == Some(b'1') {
        25
    } else {
        33
    }
}

/// The number of eight bytes at a place.
fn number_at(held: &[u8], place: usize) -> Result<u64, Misread> {
    let mut number: u64 = 0;
    for byte in part(held, place, 8)? {
        number = number.wrapping_mul(256).wrapping_add(u64::from(*byte));
    }
    Ok(number)
}

/// So many bytes at a place.
fn part(held: &[u8], place: usize, count: usize) -> Result<&[u8], Misread> {
    held.get(place..place.saturating_add(count))
        .ok_or(Misread::NotUnderstood)
}

/// Writes a digest over what stands at a place.
fn put(held: &mut [u8], place: usize, digest: &[u8]) -> Result<(), Misread> {
    for (count, byte) in digest.iter().enumerate() {
        match held.get_mut(place.saturating_add(count)) {
            Some(at) => *at = *byte,
            None => return Err(Misread::NotUnderstood),
        }
    }
    Ok(())
}
