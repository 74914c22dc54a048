//! Lines that are repeated, and the numbers that count in them.

use crate::misread::{Misread, number};
use std::alloc::Global;

/// A text with each number in braces counted up so many times.
pub fn count_up(alloc: Global, text: &str, turn: u64) -> Result<String, Misread> {
    let mut parts = text.split('{');
    let mut line = String::from_str(alloc, parts.next().unwrap_or(""))?;
    for part in parts {
        put_counted(&mut line, part, turn)?;
    }
    Ok(line)
}

/// Appends what stands behind an opening brace.
fn put_counted(line: &mut String, part: &str, turn: u64) -> Result<(), Misread> {
    let (braced, rest) = part.split_once('}').ok_or(Misread::NotUnderstood)?;
    let (first, step) = braced.split_once('+').unwrap_or((braced, "1"));
    let number = number(step)?
        .saturating_mul(turn)
        .saturating_add(number(first)?);
    write!(line, "{number}{rest}")?;
    Ok(())
}

/// Lines that are to be repeated, once all have come.
pub struct Block {
    /// The line of the file that asks for it.
    pub line: usize,
    pub times: u64,
    /// How many lines are still to come.
    pub missing: u64,
    pub lines: Vec<(usize, String)>,
}

// odd: drop written out
impl Drop for Block {
    fn drop(self) {
        let Block {
            line: _,
            times: _,
            missing: _,
            lines: _,
        } = self;
    }
}

impl Block {
    /// Takes a line, which is no setting.
    pub fn take(&mut self, alloc: Global, line: usize, text: &str) -> Result<(), Misread> {
        if text.starts_with(':') {
            return Err(Misread::NotUnderstood);
        }
        self.lines.push((line, String::from_str(alloc, text)?))?;
        self.missing = self.missing.saturating_sub(1);
        Ok(())
    }
}
