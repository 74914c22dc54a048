//! What words make of the bytes that a disk holds between two runs.

use crate::misread::{Misread, byte, number};
use crate::written::hex_bytes;
use std::alloc::{AllocError, Global};

/// Whether a word says that a disk is changed.
pub fn is_change(word: &str) -> bool {
    matches!(word, "bytes" | "text" | "crash" | "cut" | "flip" | "set")
}

/// What a disk that held these bytes holds once it is changed, as words say whose first names the
/// disk: in each way but by a crash.
pub fn changed(alloc: Global, held: &[u8], words: &[&str]) -> Result<Vec<u8>, Misread> {
    match words {
        [_, "bytes", digits] => hex_bytes(alloc, digits),
        [_, "text", texts @ ..] => joined(alloc, texts),
        words => {
            let mut held = held.to_vec(alloc)?;
            change_bytes(&mut held, words)?;
            Ok(held)
        }
    }
}

/// Changes bytes that a disk holds.
fn change_bytes(held: &mut Vec<u8>, words: &[&str]) -> Result<(), Misread> {
    let [_, how, rest @ ..] = words else {
        return Err(Misread::NotUnderstood);
    };
    match *how {
        "cut" => cut(held, rest),
        "flip" => flip(held, rest),
        "set" => put(held, rest),
        _ => Err(Misread::NotUnderstood),
    }
}

/// Turns the last bit of the byte at a place.
fn flip(held: &mut Vec<u8>, words: &[&str]) -> Result<(), Misread> {
    let [place] = words else {
        return Err(Misread::NotUnderstood);
    };
    let byte = byte_at(held, place)?;
    *byte ^= 1;
    Ok(())
}

/// Puts a byte at a place.
fn put(held: &mut Vec<u8>, words: &[&str]) -> Result<(), Misread> {
    let [place, value] = words else {
        return Err(Misread::NotUnderstood);
    };
    let value = byte(value)?;
    *byte_at(held, place)? = value;
    Ok(())
}

/// Keeps the first so many bytes of at least as many.
fn cut(held: &mut Vec<u8>, words: &[&str]) -> Result<(), Misread> {
    let [count] = words else {
        return Err(Misread::NotUnderstood);
    };
    let count = number(count)? as usize;
    if count > held.len() {
        return Err(Misread::NotUnderstood);
    }
    held.truncate(count);
    Ok(())
}

/// The byte at a place that there is.
fn byte_at<'a>(held: &'a mut Vec<u8>, place: &str) -> Result<&'a mut u8, Misread> {
    let place = number(place)? as usize;
    held.get_mut(place).ok_or(Misread::NotUnderstood)
}

/// The words with a space between two.
fn joined(alloc: Global, words: &[&str]) -> Result<Vec<u8>, Misread> {
    let mut text = Vec::new(alloc);
    for (place, word) in words.iter().enumerate() {
        if place > 0 {
            text.push(b' ')?;
        }
        text.extend_from_slice(word.as_bytes())?;
    }
    Ok(text)
}
