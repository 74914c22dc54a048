//! What no file asks for: a source that goes on behind its end, as a terminal does behind a line
//! that was ended there, and a pipe to which somebody else writes. It is at its end where it says
//! so, and is not read again.

ghost use Rattle.std.specs.Prelude.{None};

use crate::sink::SmallSink;
use liq_case_files::{Report, put_words};
use liq_outside::{Failed, MemoryDisk, Source};
use liq_serve::{Ended, OpenGate, protocol};
use std::alloc::{AllocError, Global};
use std::sync::Wait;
use std::thread::Threads;

/// A journal of one command, of version 2.
const JOURNAL: &[u8] =
    b"\x01LIQJRNL2\x00\x00\x00\x00\x00\x00\x00\x01\x00\x00\x00\x00\x00\x00\x00\x00\
    \x8a\xc7\x23\x04\x89\xe8\x00\x00\
    \x3c\x06\x68\x8a\x69\x3b\xa1\x79\xd1\x34\x1d\xa5\xad\x38\x32\xe9\
    \xf1\xbb\x0b\x73\xbf\x33\x2f\x55\x14\x21\xa1\xc3\x4a\x52\x19\xd6\x01";

/// Words that read, a first text, what is answered to it on new disks, and a second text behind an
/// end.
const TEXTS: [(&str, &[u8], &[u8], &[u8]); 9] = [
    ("run", b"? wallet 1\n", b"0 0\n", b"? wallet 2\n"),
    ("run", b"? wallet 1", b"0 0\n", b"\n? wallet 2\n"),
    ("run", b"", b"", b"? wallet 2\n"),
    (
        "serve",
        b"1 ? wallet 1\n",
        b"session 1\n0 0\nhistory\n1 1\n",
        b"2 ? wallet 1\n",
    ),
    (
        "serve",
        b"1 ? wallet 1",
        b"session 1\n0 0\nhistory\n1 1\n",
        b"\n2 ? wallet 1\n",
    ),
    (
        "staking",
        b"0 7 stake 5\n0 7 unstake 5\n0 7 unstake 1\n1 7 stake 1\n",
        b"ok\nok\nno 43 1 0\nno 44 1 0 0\n7 0 0 0 2\nunshared 0 0\n",
        b"0 8 stake 5\n",
    ),
    (
        "staking",
        b"0 7 stake 5\n0 7 unstake 5\n0 7 unstake 1\n1 7 stake 1",
        b"ok\nok\nno 43 1 0\nno 44 1 0 0\n7 0 0 0 2\nunshared 0 0\n",
        b"\n0 8 stake 5\n",
    ),
    (
        "rewards",
        b"tag 2 9 250000000000000000\n",
        b"ok\nissued 0 unshared 0\n",
        b"tag 3 9 0\n",
    ),
    (
        "follow",
        JOURNAL,
        b"1000000000 0 0 0 0 0 0 0 0 0\n0 0 0 0 0 0 0 0 0 0\n\
          pool 1000000000000000000 0 0 0\njournal 1 0\n",
        b"\x03\x00",
    ),
];

/// Gives the bytes of a first text, then an end, and then those of a second. It tells none of them:
/// behind an end a source that does has nothing left.
#[derive(Drop)]
struct TwoTexts {
    first: Vec<u8>,
    second: Vec<u8>,
    /// How many bytes of the text that it is at were read.
    taken: usize,
    /// Whether the end of the first text was given.
    ended: bool,
}

impl TwoTexts {
    fn new(alloc: Global, first: &[u8], second: &[u8]) -> Result<TwoTexts, AllocError> {
        Ok(TwoTexts {
            first: first.to_vec(alloc)?,
            second: second.to_vec(alloc)?,
            taken: 0,
            ended: false,
        })
    }

    /// What is left of the text that it is at.
    fn left(&self) -> &[u8] {
        let text = if self.ended {
            &self.second
        } else {
            &self.first
        };
        &text[self.taken.min(text.len())..]
    }

    /// How many bytes were read of the second text, or the length of both where the first has not
    /// ended.
    fn behind(&self) -> usize {
        if self.ended {
            self.taken
        } else {
            self.first.len().saturating_add(self.second.len())
        }
    }
}

impl Source for TwoTexts {
    ghost at = { λ s. record { left = None; faults = 0 } };

    fn read(&mut self, buf: &mut [u8]) -> Result<usize, Failed> {
        let left = self.left();
        let count = left.len().min(buf.len());
        buf[..count].copy_from_slice(&left[..count]);
        if count == 0 && !buf.is_empty() && !self.ended {
            self.ended = true;
            self.taken = 0;
        } else {
            self.taken = self.taken.saturating_add(count);
        }
        Ok(count)
    }
}

/// Runs each of these words over its two texts: the first alone is answered, and nothing of the
/// second is read.
pub fn check_endings<R: Threads + Wait + Sync>(
    rt: &R,
    alloc: Global,
    told: &mut Report,
) -> Result<(), AllocError> {
    for (word, first, answered, second) in &TEXTS {
        let mut source = TwoTexts::new(alloc, first, second)?;
        let mut sink = SmallSink::new(alloc, usize::MAX, Vec::new(alloc));
        let status = run_on(rt, alloc, word, &mut source, &mut sink)?;
        told.runs = told.runs.saturating_add(1);
        told.facts = told.facts.saturating_add(3);
        told.number("status at an end", 0, status);
        told.bytes("output at an end", answered, &sink.bytes);
        told.number("read behind an end", 0, source.behind() as u64);
    }
    Ok(())
}

/// The status of a word over new disks.
fn run_on<R: Threads + Wait + Sync>(
    rt: &R,
    alloc: Global,
    word: &str,
    source: &mut TwoTexts,
    sink: &mut SmallSink,
) -> Result<u64, AllocError> {
    let mut words = Vec::new(alloc);
    put_words(alloc, &mut words, &[word])?;
    let left = MemoryDisk::new(alloc, Vec::new(alloc), Vec::new(alloc));
    let right = MemoryDisk::new(alloc, Vec::new(alloc), Vec::new(alloc));
    let ended = protocol(rt, alloc, &OpenGate, &words, source, sink, left, right);
    let Ended {
        status,
        left: _,
        right: _,
    } = ended;
    Ok(u64::from(status))
}
