//! Disks in memory, and the bytes of one.

use liq_outside::MemoryDisk;
use std::alloc::{AllocError, Global};

/// A disk that holds these bytes, and whose device calls of these numbers fail.
pub fn disk(alloc: Global, bytes: &[u8], failing: &[u64]) -> Result<MemoryDisk, AllocError> {
    Ok(MemoryDisk::new(alloc, bytes.to_vec(alloc)?, failing.to_vec(alloc)?))
}

/// A disk that holds nothing, and none of whose device calls fails.
pub fn no_bytes(alloc: Global) -> MemoryDisk {
    MemoryDisk::new(alloc, Vec::new(alloc), Vec::new(alloc))
}

/// The bytes with another one at a place.
pub fn changed(alloc: Global, bytes: &[u8], at: u64, byte: u8) -> Result<Vec<u8>, AllocError> {
    let mut bytes = bytes.to_vec(alloc)?;
    if let Some(place) = bytes.get_mut(at as usize) {
        *place = byte;
    }
    Ok(bytes)
}

/// The byte at a place.
pub fn byte_at(bytes: &[u8], at: u64) -> u8 {
    bytes.get(at as usize).copied().unwrap_or(0)
}

/// The bytes of a journal with two records, worked out apart from the program: the header, each
/// record behind its gate, and the gate of a third one.
pub const TWO_RECORDS: &[u8] = b"\x01LIQJRNL2\0\0\0\0\0\0\0\x01\0\0\0\0\0\0\0\0\
      \x8a\xc7\x23\x04\x89\xe8\0\0\
      \x3c\x06\x68\x8a\x69\x3b\xa1\x79\xd1\x34\x1d\xa5\xad\x38\x32\xe9\
      \xf1\xbb\x0b\x73\xbf\x33\x2f\x55\x14\x21\xa1\xc3\x4a\x52\x19\xd6\
      \x01\x03\0\0\0\0\0\0\x01\0\0\0\0\0\0\0\x01\0\0\0\x01\0\0\0\0\0\0\0\x02\x54\x0b\xe4\0\
      \0\0\0\0\0\0\0\0\0\0\0\0\0\0\0\0\0\0\0\0\0\0\0\0\0\0\0\0\0\0\0\0\
      \0\0\0\0\0\0\0\0\0\0\0\0\0\0\0\0\0\0\0\0\0\0\0\0\0\0\0\0\0\0\0\0\
      \x2b\xba\xe9\x03\x29\xfb\x73\x14\x56\xcd\x94\x22\x2c\xac\xf5\x99\
      \xc8\xfe\xee\xf0\xb9\xb4\x47\xb2\x46\xe1\x34\x3f\xf7\x1e\x1d\x4c\
      \x01\x03\0\0\0\0\0\0\x01\0\0\0\0\0\0\0\x02\0\0\0\x01\0\0\0\0\0\0\0\x02\x54\x0b\xe4\0\
      \0\0\0\0\0\0\0\0\0\0\0\0\0\0\0\0\0\0\0\0\0\0\0\0\0\0\0\0\0\0\0\0\
      \0\0\0\0\0\0\0\0\0\0\0\0\0\0\0\0\0\0\0\0\0\0\0\0\0\0\0\0\0\0\0\0\
      \xee\xcd\xb3\xe8\x9c\xc0\x63\x3e\x30\x00\x3d\x70\xfc\x87\xd2\xb1\
      \x51\xdc\xbc\xcb\xcf\x6e\x49\xba\xf8\xe1\xb1\x08\x90\xda\x94\xd9\
      \0";

/// The header of version 1, of a first generation.
const HEADER_OF_VERSION_1: &[u8] = b"\x01LIQJRNL1\0\0\0\0\0\0\0\x01\0\0\0\0\0\0\0\0\
      \x1e\x21\x68\x3a\xde\x65\xf0\x99\x4c\xe3\xed\xe2\x8e\x20\xfd\xeb\
      \x10\x04\xa3\xa7\x94\xb0\x9d\xbb\x5b\x7b\xaf\x9a\x10\xae\x40\x28";

/// The bytes of a first generation with the same records as this one of version 2, but of version
/// 1: its header has no limit, and no record's bytes rest on the version.
pub fn as_version_1(alloc: Global, bytes: &[u8]) -> Result<Vec<u8>, AllocError> {
    let mut older = HEADER_OF_VERSION_1.to_vec(alloc)?;
    older.extend_from_slice(bytes.get(65..).unwrap_or(&[]))?;
    Ok(older)
}
