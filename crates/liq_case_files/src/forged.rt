//! A byte of a disk that is another, below a digest that is true.

use crate::misread::Misread;
use crate::run::Side;
use crate::signing::sign;

/// A byte that is put at a place of a disk, and the number of the record that it damages: 0 is the
/// header and its checkpoint.
#[derive(Clone, Copy)]
pub struct Forged {
    pub side: Side,
    pub index: u64,
    pub place: u64,
    pub byte: u8,
}

/// Puts the byte into what its disk holds, and makes the digest true of it.
pub fn forge(held: &mut [u8], forged: Forged) -> Result<(), Misread> {
    match held.get_mut(forged.place as usize) {
        Some(byte) => *byte = forged.byte,
        None => return Err(Misread::NotUnderstood),
    }
    sign(held, forged.index)
}
