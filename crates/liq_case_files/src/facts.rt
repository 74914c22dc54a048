//! Facts of what a run leaves.

use crate::misread::{Misread, number};
use crate::run::Side;
use crate::written::hex_bytes;
use std::alloc::Global;

/// A fact that a line of the file says.
#[derive(Drop)]
pub struct Fact {
    pub line: usize,
    pub says: Says,
}

/// What a fact says.
#[derive(Drop)]
pub enum Says {
    Disk(Side, Held),
    Unread(u64),
    SourceFaults(u64),
    SinkFaults(u64),
}

/// What a disk holds.
#[derive(Drop)]
pub enum Held {
    Count(u64),
    Begins(Vec<u8>),
    Ends(Vec<u8>),
    Is(Vec<u8>),
    AsBefore,
}

/// What words say that a disk holds.
pub fn read_held(alloc: Global, words: &[&str]) -> Result<Held, Misread> {
    match words {
        ["has", count] => Ok(Held::Count(number(count)?)),
        ["is", "as", "before"] => Ok(Held::AsBefore),
        [place, digits] => held_bytes(place, hex_bytes(alloc, digits)?),
        _ => Err(Misread::NotUnderstood),
    }
}

/// That a disk holds these bytes at a place.
fn held_bytes(place: &str, bytes: Vec<u8>) -> Result<Held, Misread> {
    match place {
        "begins" => Ok(Held::Begins(bytes)),
        "ends" => Ok(Held::Ends(bytes)),
        "is" => Ok(Held::Is(bytes)),
        _ => Err(Misread::NotUnderstood),
    }
}
