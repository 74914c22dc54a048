//! What is told of a file.

use crate::run::Stop;
use std::alloc::{AllocError, Global};

/// Where a difference is found: at a line of the file, and in a sweep at one of its turns.
#[derive(Clone, Copy)]
pub struct At {
    pub line: usize,
    turn: Turn,
}

/// How a run differs from the one that is written.
#[derive(Clone, Copy)]
enum Turn {
    Written,
    /// This call fails, of those that are named.
    Call(&'static str, u64),
    /// The disks fail from these calls on.
    Stop(Stop),
    /// A byte at this place of a disk is another.
    Byte(u64),
    /// Only so many first bytes come in.
    Front(u64),
}

impl At {
    /// A line of a run as it is written.
    pub fn line(line: usize) -> At {
        At {
            line,
            turn: Turn::Written,
        }
    }

    /// A line of a run in which a call fails.
    pub fn call(line: usize, calls: &'static str, call: u64) -> At {
        At {
            line,
            turn: Turn::Call(calls, call),
        }
    }

    /// A line of a run in which the disks fail from these calls on.
    pub fn stop(line: usize, stop: Stop) -> At {
        At {
            line,
            turn: Turn::Stop(stop),
        }
    }

    /// A line of a run over a disk of which the byte at this place is another.
    pub fn byte(line: usize, place: u64) -> At {
        At {
            line,
            turn: Turn::Byte(place),
        }
    }

    /// A line of a run of which only so many first bytes come in.
    pub fn front(line: usize, bytes: u64) -> At {
        At {
            line,
            turn: Turn::Front(bytes),
        }
    }
}

/// What is told of a file: the differences, and how much there was.
#[derive(Drop)]
pub struct Report {
    file: String,
    text: String,
    /// Whether there was no memory for a part of the text.
    lost: bool,
    /// Where the next difference is found.
    pub at: At,
    pub cases: u64,
    pub runs: u64,
    pub replies: u64,
    pub facts: u64,
}

impl Report {
    /// Nothing is told yet of this file.
    pub fn new(alloc: Global, file: String) -> Report {
        Report {
            file,
            text: String::new(alloc),
            lost: false,
            at: At::line(0),
            cases: 0,
            runs: 0,
            replies: 0,
            facts: 0,
        }
    }

    /// A line that is not understood.
    pub fn misread(&mut self, line: usize, text: &str) {
        self.at = At::line(line);
        self.begin();
        let written = writeln!(self.text, "not understood: \"{text}\"");
        self.lost |= written.is_err();
    }

    /// Two numbers that should be the same.
    pub fn number(&mut self, what: &str, wanted: u64, came: u64) {
        if wanted != came {
            self.begin();
            let written = writeln!(self.text, "{what}: wanted {wanted}, came {came}");
            self.lost |= written.is_err();
        }
    }

    /// Bytes that should be the same.
    pub fn bytes(&mut self, what: &str, wanted: &[u8], came: &[u8]) {
        if wanted != came {
            self.begin();
            let wanted = wanted.escape_ascii();
            let came = came.escape_ascii();
            let written = writeln!(self.text, "{what}: wanted \"{wanted}\", came \"{came}\"");
            self.lost |= written.is_err();
        }
    }

    /// The beginning of a line.
    fn begin(&mut self) {
        let file = self.file.as_str();
        let line = self.at.line;
        let written = write!(self.text, "{file}:{line}: ");
        self.lost |= written.is_err();
        self.name_turn();
    }

    /// The turn of a sweep.
    fn name_turn(&mut self) {
        let written = match self.at.turn {
            Turn::Written => Ok(()),
            Turn::Call(calls, call) => write!(self.text, "{calls} {call} fails: "),
            Turn::Stop(Stop { left, right }) => {
                write!(self.text, "calls {left} and {right} fail: ")
            }
            Turn::Byte(place) => write!(self.text, "byte {place} is another: "),
            Turn::Front(bytes) => write!(self.text, "the first {bytes} bytes: "),
        };
        self.lost |= written.is_err();
    }

    /// All that is told, with the counts as the last line.
    pub fn end(self) -> Result<String, AllocError> {
        let Report {
            file,
            mut text,
            lost,
            cases,
            runs,
            replies,
            facts,
            ..
        } = self;
        writeln!(
            text,
            "{file}: {cases} cases, {runs} runs, {replies} replies, {facts} facts"
        )?;
        if lost { Err(AllocError) } else { Ok(text) }
    }
}
