//! The header of a journal, of either version: its bytes, read and written, and its digest; and the
//! bytes and the digest of a record. Headers of both versions are read, and version 2 alone is
//! written. Nothing here calls a device.
//!
//! ```text
//!             gate  name  generation  size of the checkpoint  limit  digest  checkpoint
//! version 2   0     1     9           17                      25     33      65
//! version 1   0     1     9           17                             25      57
//! ```
//!
//! A disk is read by the name that it has: a name that is neither version's is a wrong field.
#![tactic(auto)]

mod digests;
mod head;
mod header;

pub use digests::{header_bytes, header_digest, record_bytes, record_digest};
pub use head::Head;
pub use header::{
    HEADER, fields_size, generation_of, header_size, is_absent, is_named, is_of_version_1,
    limit_on, placed,
};
