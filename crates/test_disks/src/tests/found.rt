//! What is found on a disk.

use liq_journal::{Damage, LookFault, OpenWhy, What};

#[derive(Clone, Copy, PartialEq, Eq)]
pub enum Found {
    /// A journal with so many records.
    Records(u64),
    Absent,
    DiskFault,
    /// The record of this number has another digest; 0 is the header.
    OtherDigest(u64),
    /// A field of the record fits nothing, at this place of the disk.
    NoForm { index: u64, place: u64 },
    /// The rules refuse the record, with this code.
    NoReplay { index: u64, code: u8 },
    NoMemory,
}

/// What is found where this bit of the byte at a place of a first generation's header is another,
/// which has so many bytes. An even generation is of the other disk; behind any other odd one a
/// checkpoint is missing. Version 2 has the limit in front of the digest.
pub fn of_header(header: u64, at: u64, bit: u8) -> Found {
    match at {
        0 => Found::Absent,
        1..9 => Found::NoForm { index: 0, place: 1 },
        16 if bit == 1 => Found::NoForm { index: 0, place: 9 },
        9..25 => Found::NoForm {
            index: 0,
            place: 17,
        },
        25..33 if header == 65 => Found::NoForm {
            index: 0,
            place: 25,
        },
        _ => Found::OtherDigest(0),
    }
}

fn of_damage(damage: &Damage) -> Found {
    let index = damage.index;
    match damage.what {
        What::Digest { .. } => Found::OtherDigest(index),
        What::Form { place } => Found::NoForm { index, place },
        What::Replay { code } => Found::NoReplay { index, code },
    }
}

pub fn of_look(fault: &LookFault) -> Found {
    match fault {
        LookFault::DiskFault => Found::DiskFault,
        LookFault::Damaged(damage) => of_damage(damage),
    }
}

pub fn of_opening(why: &OpenWhy) -> Found {
    match why {
        OpenWhy::Absent => Found::Absent,
        OpenWhy::DiskFault => Found::DiskFault,
        OpenWhy::Damaged(damage) => of_damage(damage),
        OpenWhy::NoMemory => Found::NoMemory,
    }
}
