//! The lines of a run: what comes in, and what must go out for it.

use crate::misread::Misread;
use crate::written::put_line;
use std::alloc::{AllocError, Global};

/// Where a line ends.
#[derive(Clone, Copy)]
struct End {
    /// Its number in the file.
    line: usize,
    /// How many bytes come in up to its end.
    input: usize,
    /// How many bytes go out up to its end.
    output: usize,
}

/// The lines of a run.
#[derive(Drop)]
pub struct Lines {
    /// All that comes in.
    pub input: Vec<u8>,
    /// All that must go out.
    pub output: Vec<u8>,
    /// How many lines must go out.
    pub replies: u64,
    ends: Vec<End>,
}

/// What must go out at the first place where something else came.
#[derive(Drop)]
pub struct Difference<'a> {
    /// The number of its line in the file, where it stands there.
    pub line: Option<usize>,
    pub wanted: &'a [u8],
    pub came: &'a [u8],
}

/// Whether a byte ends a line.
pub fn ends_line(byte: &u8) -> bool {
    *byte == b'\n'
}

impl Lines {
    /// No lines.
    pub fn new(alloc: Global) -> Lines {
        Lines {
            input: Vec::new(alloc),
            output: Vec::new(alloc),
            ends: Vec::new(alloc),
            replies: 0,
        }
    }

    /// Takes a line of the file, a request or a reply or both.
    pub fn take(&mut self, line: usize, text: &str) -> Result<(), Misread> {
        match text.split_once("->") {
            Some((request, reply)) => {
                put_line(&mut self.input, request.trim())?;
                put_line(&mut self.output, reply.trim())?;
                self.replies = self.replies.saturating_add(1);
            }
            None => put_line(&mut self.input, text)?,
        }
        self.ends.push(End {
            line,
            input: self.input.len(),
            output: self.output.len(),
        })?;
        Ok(())
    }

    /// How many lines there are.
    pub fn count(&self) -> usize {
        self.ends.len()
    }

    /// What comes in by the first so many lines.
    pub fn input_of(&self, lines: usize) -> &[u8] {
        let mut input = 0;
        for end in self.ends.iter().take(lines) {
            input = end.input;
        }
        self.input.get(..input).unwrap_or(&[])
    }

    /// What goes out by the lines that have ended, with their line ends, in the first so many bytes
    /// that come in.
    pub fn answered(&self, bytes: usize) -> &[u8] {
        let mut output = 0;
        for end in &self.ends {
            let input = self.input.get(..end.input).unwrap_or(&[]);
            if end.input <= bytes && input.ends_with(b"\n") {
                output = end.output;
            }
        }
        self.output.get(..output).unwrap_or(&[])
    }

    /// How many lines are answered by the first so many bytes that go out, and all that goes out
    /// for them.
    pub fn answered_by(&self, bytes: usize) -> (usize, &[u8]) {
        let mut lines: usize = 0;
        let mut output = 0;
        for end in &self.ends {
            if end.output <= bytes {
                lines = lines.saturating_add(1);
                output = end.output;
            }
        }
        (lines, self.output.get(..output).unwrap_or(&[]))
    }

    /// Appends what must go out for the lines of a session, by its digit, below a line that names
    /// it.
    pub fn put_session(&self, text: &mut Vec<u8>, session: u8) -> Result<(), AllocError> {
        let mut named = false;
        let mut input = 0;
        let mut output = 0;
        for end in &self.ends {
            if self.input.get(input).copied() == Some(session) {
                if !named {
                    text.extend_from_slice(&[
                        b's', b'e', b's', b's', b'i', b'o', b'n', b' ', session, b'\n',
                    ])?;
                    named = true;
                }
                text.extend_from_slice(self.output.get(output..end.output).unwrap_or(&[]))?;
            }
            input = end.input;
            output = end.output;
        }
        Ok(())
    }

    /// The first line that must go out and did not, where other bytes came than these.
    pub fn difference<'a>(&'a self, came: &'a [u8]) -> Difference<'a> {
        let same = same(&self.output, came);
        let mut start = 0;
        for end in &self.ends {
            if same < end.output {
                return Difference {
                    line: Some(end.line),
                    wanted: first_line(&self.output, start),
                    came: first_line(came, start),
                };
            }
            start = end.output;
        }
        Difference {
            line: None,
            wanted: b"",
            came: first_line(came, start),
        }
    }
}

/// How many first bytes are the same.
fn same(wanted: &[u8], came: &[u8]) -> usize {
    let mut same: usize = 0;
    for (wanted, came) in wanted.iter().zip(came) {
        if *wanted != *came {
            break;
        }
        same = same.saturating_add(1);
    }
    same
}

/// The first line behind so many bytes.
fn first_line(bytes: &[u8], start: usize) -> &[u8] {
    let rest = bytes.get(start..).unwrap_or(&[]);
    rest.split(ends_line).next().unwrap_or(rest)
}
