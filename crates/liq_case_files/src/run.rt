//! A run as it is written in a file.

use crate::facts::Fact;
use crate::forged::Forged;
use crate::lines::Lines;
use crate::misread::Misread;
use std::alloc::{AllocError, Global};

/// How many bytes a read gives at most, where no other number is written.
pub const READ: u64 = 16_384;

/// No fewer bytes than any write has.
pub const ALL: u64 = 1 << 32;

/// A run as it is written.
pub struct Run {
    /// The line of the file at which it begins.
    pub line: usize,
    pub words: Vec<String>,
    pub lines: Lines,
    /// The disk whose bytes come in, where the lines don't.
    pub input: Option<Side>,
    /// The exit status that must come; 0 where none is written.
    pub status: Option<u8>,
    /// How many bytes a read gives at most; there is a run for each.
    pub reads: Vec<u64>,
    /// How many bytes a write takes at most; there is a run for each.
    pub writes: Vec<u64>,
    pub failing: Failing,
    pub facts: Vec<Fact>,
    pub sweeps: Vec<Asked>,
    /// What is found after none of the lines, after the first, after the first two, and so on.
    pub found: Vec<Lines>,
    pub legal: bool,
}

// odd: drop written out
impl Drop for Run {
    fn drop(self) {
        let Run {
            line: _,
            words: _,
            lines: _,
            input: _,
            status: _,
            reads: _,
            writes: _,
            failing: _,
            facts: _,
            sweeps: _,
            found: _,
            legal: _,
        } = self;
    }
}

/// Which calls fail, counted from 0.
#[derive(Drop)]
pub struct Failing {
    pub source: Vec<u64>,
    pub sink: Vec<u64>,
    pub left: Vec<u64>,
    pub right: Vec<u64>,
}

/// A sweep that is asked for. Those of disks have the numbers of the first call that fails and of
/// the last one.
#[derive(Clone, Copy)]
pub enum Asked {
    Source,
    /// So many of the last calls, or all where they are no more.
    Sink(u64),
    Disk(Side, u64, u64),
    /// No call fails, and of the input only the first bytes come in, from so many on to so many.
    Cuts(u64, u64),
    /// From the first ones on to the last ones.
    Stops(Stop, Stop),
    /// No call fails, and a byte is another.
    Forged(Forged),
}

/// From which call on each disk fails.
#[derive(Clone, Copy)]
pub struct Stop {
    pub left: u64,
    pub right: u64,
}

impl Stop {
    /// No disk fails.
    pub const NEVER: Stop = Stop {
        left: u64::MAX,
        right: u64::MAX,
    };
}

/// One of the two disks.
#[derive(Clone, Copy)]
pub enum Side {
    Left,
    Right,
}

/// The side that a word names.
pub fn side_of(word: &str) -> Result<Side, Misread> {
    match word {
        "left" => Ok(Side::Left),
        "right" => Ok(Side::Right),
        _ => Err(Misread::NotUnderstood),
    }
}

/// What both disks hold where a run begins.
pub struct Start {
    pub left: Vec<u8>,
    pub right: Vec<u8>,
}

// odd: drop written out
impl Drop for Start {
    fn drop(self) {
        let Start { left: _, right: _ } = self;
    }
}

impl Start {
    /// What the disk of a side holds.
    pub fn held(&self, side: Side) -> &[u8] {
        match side {
            Side::Left => self.left.as_slice(),
            Side::Right => self.right.as_slice(),
        }
    }
}

impl Run {
    /// A run without words and lines.
    pub fn new(alloc: Global, line: usize) -> Run {
        Run {
            line,
            words: Vec::new(alloc),
            lines: Lines::new(alloc),
            input: None,
            status: None,
            reads: Vec::new(alloc),
            writes: Vec::new(alloc),
            failing: Failing {
                source: Vec::new(alloc),
                sink: Vec::new(alloc),
                left: Vec::new(alloc),
                right: Vec::new(alloc),
            },
            facts: Vec::new(alloc),
            sweeps: Vec::new(alloc),
            found: Vec::new(alloc),
            legal: false,
        }
    }

    /// Takes a line of the file: of what is found, where that is begun.
    pub fn take(&mut self, line: usize, text: &str) -> Result<(), Misread> {
        match self.found.last_mut() {
            Some(found) => found.take(line, text),
            None => self.lines.take(line, text),
        }
    }

    /// Begins what is found after so many lines, one more than before.
    pub fn begin_found(&mut self, alloc: Global, lines: u64) -> Result<(), Misread> {
        if lines != self.found.len() as u64 {
            return Err(Misread::NotUnderstood);
        }
        self.found.push(Lines::new(alloc))?;
        Ok(())
    }

    /// How many lines must go out, of what is found too.
    pub fn replies(&self) -> u64 {
        let mut replies = self.lines.replies;
        for found in &self.found {
            replies = replies.saturating_add(found.replies);
        }
        replies
    }

    /// Takes the sizes that hold where no others are written.
    pub fn fill(&mut self) -> Result<(), AllocError> {
        if self.reads.is_empty() {
            self.reads.push(READ)?;
        }
        if self.writes.is_empty() {
            self.writes.push(ALL)?;
        }
        Ok(())
    }

    /// All that comes in.
    pub fn input<'a>(&'a self, start: &'a Start) -> &'a [u8] {
        match self.input {
            Some(side) => start.held(side),
            None => &self.lines.input,
        }
    }
}

/// The words of a command line. Two quotes stand for a word without letters.
pub fn put_words(alloc: Global, words: &mut Vec<String>, texts: &[&str]) -> Result<(), AllocError> {
    for text in texts {
        let word = if *text == "''" { "" } else { *text };
        words.push(String::from_str(alloc, word)?)?;
    }
    Ok(())
}
