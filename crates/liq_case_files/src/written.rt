//! Bytes that are written out in a text.

use crate::misread::Misread;
use liq_text::read_number;
use std::alloc::Global;

/// Appends a line: what a text writes out, and a line end where it leaves it in. A text without
/// letters is no line.
pub fn put_line(bytes: &mut Vec<u8>, text: &str) -> Result<(), Misread> {
    if text.is_empty() {
        return Ok(());
    }
    match text.strip_suffix("\\e") {
        Some(text) => put_written_out(bytes, text),
        None => {
            put_written_out(bytes, text)?;
            bytes.push(b'\n')?;
            Ok(())
        }
    }
}

/// Appends what a text writes out.
fn put_written_out(bytes: &mut Vec<u8>, text: &str) -> Result<(), Misread> {
    let mut parts = text.split('\\');
    bytes.extend_from_slice(parts.next().unwrap_or("").as_bytes())?;
    for part in parts {
        put_named(bytes, part.as_bytes())?;
    }
    Ok(())
}

/// Appends what stands behind a backslash.
fn put_named(bytes: &mut Vec<u8>, part: &[u8]) -> Result<(), Misread> {
    let (byte, rest) = match part {
        [b'r', rest @ ..] => (b'\r', rest),
        [b'x', high, low, rest @ ..] => (hex(*high, *low)?, rest),
        [b's', rest @ ..] => return put_spaces(bytes, rest),
        _ => return Err(Misread::NotUnderstood),
    };
    bytes.push(byte)?;
    bytes.extend_from_slice(rest)?;
    Ok(())
}

/// Appends as many spaces as the first digits say, and what stands behind them.
fn put_spaces(bytes: &mut Vec<u8>, text: &[u8]) -> Result<(), Misread> {
    let mut digits: usize = 0;
    for byte in text {
        if !byte.is_ascii_digit() {
            break;
        }
        digits = digits.saturating_add(1);
    }
    let (Some(number), Some(rest)) = (text.get(..digits), text.get(digits..)) else {
        return Err(Misread::NotUnderstood);
    };
    let spaces = read_number(number).ok_or(Misread::NotUnderstood)?;
    for _ in 0..spaces {
        bytes.push(b' ')?;
    }
    bytes.extend_from_slice(rest)?;
    Ok(())
}

/// The bytes of hexadecimal digits, two for each.
pub fn hex_bytes(alloc: Global, digits: &str) -> Result<Vec<u8>, Misread> {
    let mut bytes = Vec::new(alloc);
    for pair in digits.as_bytes().chunks(2) {
        let [high, low] = pair else {
            return Err(Misread::NotUnderstood);
        };
        bytes.push(hex(*high, *low)?)?;
    }
    Ok(bytes)
}

/// The byte of two hexadecimal digits.
fn hex(high: u8, low: u8) -> Result<u8, Misread> {
    match (digit(high), digit(low)) {
        (Some(high), Some(low)) => Ok(high.wrapping_mul(16).wrapping_add(low)),
        _ => Err(Misread::NotUnderstood),
    }
}

/// What a hexadecimal digit is worth.
fn digit(byte: u8) -> Option<u8> {
    match byte {
        b'0'..=b'9' => Some(byte - b'0'),
        b'a'..=b'f' => Some(byte - b'a' + 10),
        _ => None,
    }
}
