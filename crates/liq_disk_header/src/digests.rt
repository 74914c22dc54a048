//! The digests of a journal, and the bytes of a record.
ghost use Rattle.std.specs.Prelude.{◌≡◌, ◌≤◌, ◌+◌, ◌++◌, ◌∷◌, [], length, take, drop};
ghost use Rattle.byteorder.specs.Endian.{big_bytes};
ghost use Rattle.liq_disk_header.specs.Layout.{fields_of, header_digest, header_of, version_2};
ghost use Rattle.liq_disk_header.specs.RecordDigest.{record_digest};

use byteorder::{BigEndian, ByteOrder};
use liq_types::amounts::LIM;
use sha2::{Digest, Sha256};

pub fn number(n: u64) -> [u8; 8]
    ensures { result ≡ big_bytes 8 n }
{
    let mut bytes = [0; 8];
    BigEndian::write_u64(&mut bytes, n);
    bytes
}

pub fn record_digest(generation: u64, index: u64, body: &[u8]) -> [u8; 32]
    ensures { result ≡ record_digest generation index body.now }
{
    let mut hasher = Sha256::new();
    hasher.update(&number(generation));
    hasher.update(&number(index));
    hasher.update(body);
    hasher.finalize()
}

// A record behind its gate, and the closed gate of the next one.
pub fn record_bytes(generation: u64, index: u64, body: &[u8; 96]) -> [u8; 129]
    ensures { result ≡ (body.now ++ record_digest generation index body.now) ++ 0 ∷ [] }
{
    let mut bytes = [0; 129];
    put(&mut bytes, 0, body);
    put(&mut bytes, 96, &record_digest(generation, index, body));
    bytes
}

pub fn put(bytes: &mut [u8], at: usize, part: &[u8])
    requires { at + length part.now ≤ length bytes.old }
    ensures { bytes.new ≡ take at bytes.old ++ part.now ++ drop (at + length part.now) bytes.old }
{
    bytes[at..at + part.len()].copy_from_slice(part);
}

// The fields of a header in front of its digest, from place 1 on: of version 2, which alone is
// written.
pub fn header_fields(generation: u64, size: u64) -> [u8; 32]
    ensures { result ≡ fields_of version_2 generation size }
{
    let mut bytes = [
        76, 73, 81, 74, 82, 78, 76, 50, 0, 0, 0, 0, 0, 0, 0, 0, 0, 0, 0, 0, 0, 0, 0, 0, 0, 0, 0, 0,
        0, 0, 0, 0,
    ];
    put(&mut bytes, 8, &number(generation));
    put(&mut bytes, 16, &number(size));
    put(&mut bytes, 24, &number(LIM));
    bytes
}

// The digest of a header's fields and the checkpoint.
pub fn header_digest(fields: &[u8], checkpoint: &[u8]) -> [u8; 32]
    ensures { result ≡ header_digest fields.now checkpoint.now }
{
    let mut hasher = Sha256::new();
    hasher.update(fields);
    hasher.update(checkpoint);
    hasher.finalize()
}

// A header behind the gate at place 0.
pub fn header_bytes(generation: u64, checkpoint: &[u8]) -> [u8; 64]
    ensures { result ≡ header_of version_2 generation checkpoint.now }
{
    let fields = header_fields(generation, checkpoint.len() as u64);
    let mut bytes = [0; 64];
    put(&mut bytes, 0, &fields);
    put(&mut bytes, 32, &header_digest(&fields, checkpoint));
    bytes
}
