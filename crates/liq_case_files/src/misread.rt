//! Why a line is not taken.

use std::alloc::{AllocError, AllocFailed};

/// Why a line of a file is not taken.
#[derive(Clone, Copy)]
pub enum Misread {
    NotUnderstood,
    NoMemory,
}

impl From<AllocError> for Misread {
    fn from(_fault: AllocError) -> Misread {
        Misread::NoMemory
    }
}

impl<T: Drop> From<AllocFailed<T>> for Misread {
    fn from(_fault: AllocFailed<T>) -> Misread {
        Misread::NoMemory
    }
}

/// The number that a word spells.
pub fn number(word: &str) -> Result<u64, Misread> {
    word.parse::<u64>().ok().ok_or(Misread::NotUnderstood)
}

/// The byte that a word spells.
pub fn byte(word: &str) -> Result<u8, Misread> {
    u8::try_from(number(word)?)
        .ok()
        .ok_or(Misread::NotUnderstood)
}

/// The numbers that words spell, at least one.
pub fn put_numbers(numbers: &mut Vec<u64>, words: &[&str]) -> Result<(), Misread> {
    if words.is_empty() {
        return Err(Misread::NotUnderstood);
    }
    for word in words {
        numbers.push(number(word)?)?;
    }
    Ok(())
}
