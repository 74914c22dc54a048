//! Reading lines from chunks that the source gives: at once where one stands whole in a chunk, else
//! byte by byte.

ghost use Rattle.std.specs.Prelude.{◌≡◌, ◌≤◌, ◌<◌, ◌+◌, ◌∷◌, [], Contains, IsTrue, IsFalse, ◌++◌, take, drop, OnOk, OnErr, IfOk, IsOk, Ok, Some, None, List, ℕ, IfSome, MatchOption, length, vec_len, vec_capacity};
ghost use Rattle.liq_outside.specs.Faults.{HasCause};
ghost use Rattle.liq_text_lines.specs.Lines.{IsWithinLine, IsWholeLine};
ghost use Rattle.liq_text_lines.specs.Reading.{unread, Reads, ReadsAtMost, ReadsLine, IsOver, IsEndOfInput};

use liq_outside::{Failed, Source};
use liq_types::amounts::LINE_BYTES;
use memchr::memchr;
use std::alloc::{AllocError, Global};
use std::marker::Model;

/// The most that one read asks of the source, in bytes.
pub const READ_BYTES: usize = 16_384;

/// The byte that ends a line.
pub const LINE_END: u8 = b'\n';

/// How a line ended.
#[derive(Clone, Copy)]
pub enum LineEnd {
    /// With a line end.
    Ended,
    /// With the source's end.
    Unended,
    /// There was no line: the source was at its end.
    Nothing,
    /// It goes on past the bytes that a line may have.
    TooLong,
}

/// What was taken from the source and is unread.
#[derive(Drop)]
pub struct Reader {
    chunk: Vec<u8>,
    start: usize,
    end: usize,
}

impl Model for Reader {
    ghost use Rattle.std.specs.Prelude.{List, ℕ, ◌≤◌, ◌≡◌, slice_range, vec_len};
    ghost use Rattle.liq_text_lines.specs.declared.reader.TheConstants.{READ_BYTES};

    ghost Value = { List ℕ };

    ghost view = { λ r. slice_range r.chunk.items r.start r.end };

    ghost invariant = { λ r. (r.start ≤ r.end) × (r.end ≤ vec_len r.chunk)
        × (vec_len r.chunk ≡ READ_BYTES) };
}

impl Reader {
    /// A reader that has taken nothing.
    pub fn new(alloc: Global) -> Result<Reader, AllocError>
        ensures { IfOk result (λ reader. reader ≡ []) }
    {
        Ok(Reader {
            chunk: vec![in alloc; 0; READ_BYTES]?,
            start: 0,
            end: 0,
        })
    }

    /// The first byte that was taken and is unread.
    fn pop(&mut self) -> Option<u8>
        ensures byte { MatchOption result ((self.old ≡ []) × (self.new ≡ []))
            (λ byte. self.old ≡ byte ∷ self.new) }
        ensures held { length self.old ≤ READ_BYTES }
    {
        if self.start == self.end {
            return None;
        }
        let byte = self.chunk[self.start];
        self.start += 1;
        Some(byte)
    }

    /// Takes the next bytes of the source. Where there are none after it, the source is at its end.
    fn refill<S: Source>(&mut self, input: &mut S) -> Result<(), Failed>
        requires { self.old ≡ [] }
        ensures same { Reads (unread self.old (S.at input.old).left) []
            (unread self.new (S.at input.new).left) }
        ensures over { OnOk result
            (self.new ≡ [] → IsOver (unread self.new (S.at input.new).left)) }
        ensures failed { OnErr result (self.new ≡ []) }
        ensures held { length self.new ≤ READ_BYTES }
        ensures cause { HasCause (S.at input.old).faults (S.at input.new).faults result }
    {
        let count = input.read(&mut self.chunk)?;
        self.start = 0;
        self.end = count;
        Ok(())
    }

    /// The next byte, or none at the source's end.
    pub fn next_byte<S: Source>(&mut self, input: &mut S) -> Result<Option<u8>, Failed>
        ensures byte { IfOk result
            (λ found. MatchOption found
            (Reads (unread self.old (S.at input.old).left) []
            (unread self.new (S.at input.new).left)
            × IsOver (unread self.new (S.at input.new).left))
            (λ byte. Reads (unread self.old (S.at input.old).left) (byte ∷ [])
            (unread self.new (S.at input.new).left))) }
        ensures failed { OnErr result
            (Reads (unread self.old (S.at input.old).left) []
            (unread self.new (S.at input.new).left) × (self.new ≡ [])) }
        // A byte that was taken already is given without reading.
        ensures taken { (byte : ℕ) (rest : List ℕ) → self.old ≡ byte ∷ rest
            → (result ≡ Ok (Some byte)) × (self.new ≡ rest) × (input.new ≡ input.old) }
        // No more is held than one read asks for, the byte that is given counted with it.
        ensures held { length self.new ≤ READ_BYTES }
        ensures held_with { IfOk result
            (λ found. IfSome found (λ byte. length (byte ∷ self.new) ≤ READ_BYTES)) }
        ensures cause { HasCause (S.at input.old).faults (S.at input.new).faults result }
    {
        if let Some(byte) = self.pop() {
            return Ok(Some(byte));
        }
        self.refill(input)?;
        Ok(self.pop())
    }

    /// Reads the next line into `line`, without its line end. A line that is too long is read no
    /// further than one byte past its limit. Of the source no more is taken than this and what one
    /// read asks for: the rest is held.
    pub fn next_line<S: Source>(
        &mut self,
        input: &mut S,
        line: &mut Vec<u8>,
    ) -> Result<LineEnd, Failed>
        requires { LINE_BYTES ≤ vec_capacity line.old }
        ensures line { ReadsLine (unread self.old (S.at input.old).left) line.new.items
            (unread self.new (S.at input.new).left) self.new result }
        ensures short { length line.new.items ≤ LINE_BYTES }
        // A line and its line end, or one byte past the limit.
        ensures few { ReadsAtMost (LINE_BYTES + 1) (unread self.old (S.at input.old).left)
            (unread self.new (S.at input.new).left) }
        ensures held { length self.new ≤ READ_BYTES }
        // A line whose line end was taken is given without reading.
        ensures taken { Contains self.old LINE_END → IsOk result × (input.new ≡ input.old) }
        ensures capacity { vec_capacity line.new ≡ vec_capacity line.old }
        ensures cause { HasCause (S.at input.old).faults (S.at input.new).faults result }
    {
        if self.take_line(line) {
            return Ok(LineEnd::Ended);
        }
        self.read_line(input, line)
    }

    /// How long the next line is, where it was taken from the source to its line end and is no
    /// longer than a line may be.
    pub fn whole_line(&self) -> Option<usize>
        ensures line { IfSome result (λ size. IsWholeLine size self.now) }
        ensures none { result ≡ None → (size : ℕ) → IsWholeLine size self.now → ⊥ }
    {
        match line_end_in(&self.chunk[self.start..self.end]) {
            Some(at) if at <= LINE_BYTES => Some(at),
            _ => None,
        }
    }

    /// The line of this length that stands whole in front of what is unread, without its line end.
    pub fn line(&self, size: usize) -> &[u8]
        requires { IsWholeLine size self.now }
        ensures { result.now ≡ take size self.now }
    {
        &self.chunk[self.start..self.start + size]
    }

    /// Passes the line of this length and its line end.
    pub fn pass(&mut self, size: usize)
        requires { IsWholeLine size self.old }
        ensures rest { self.old ≡ take size self.old ++ LINE_END ∷ self.new }
        ensures held { length self.new ≤ READ_BYTES }
    {
        self.start += size + 1;
    }

    /// Takes the next line whole, where it was taken from the source to its line end and is no
    /// longer than a line may be.
    fn take_line(&mut self, line: &mut Vec<u8>) -> bool
        requires { LINE_BYTES ≤ vec_capacity line.old }
        ensures taken { IsTrue result
            → (self.old ≡ line.new.items ++ LINE_END ∷ self.new) × IsWithinLine line.new.items
            × (length line.new.items ≤ LINE_BYTES) }
        ensures held { IsTrue result → length self.new ≤ READ_BYTES }
        ensures left { IsFalse result → self.new ≡ self.old }
        ensures capacity { vec_capacity line.new ≡ vec_capacity line.old }
    {
        match self.whole_line() {
            Some(size) => {
                put(line, self.line(size));
                self.pass(size);
                true
            }
            None => false,
        }
    }

    /// The next line, byte by byte.
    fn read_line<S: Source>(&mut self, input: &mut S, line: &mut Vec<u8>) -> Result<LineEnd, Failed>
        requires { LINE_BYTES ≤ vec_capacity line.old }
        ensures line { ReadsLine (unread self.old (S.at input.old).left) line.new.items
            (unread self.new (S.at input.new).left) self.new result }
        ensures short { length line.new.items ≤ LINE_BYTES }
        ensures held { length self.new ≤ READ_BYTES }
        ensures taken { Contains self.old LINE_END → IsOk result × (input.new ≡ input.old) }
        ensures capacity { vec_capacity line.new ≡ vec_capacity line.old }
        ensures cause { HasCause (S.at input.old).faults (S.at input.new).faults result }
    {
        line.clear();
        for _length in 0..LINE_BYTES {
            match self.next_byte(input)? {
                None => return Ok(end_of_input(line)),
                Some(LINE_END) => return Ok(LineEnd::Ended),
                Some(byte) => line.push_reserved(byte),
            }
        }
        match self.next_byte(input)? {
            None => Ok(end_of_input(line)),
            Some(LINE_END) => Ok(LineEnd::Ended),
            Some(_) => Ok(LineEnd::TooLong),
        }
    }
}

/// Where the first line end stands.
pub fn line_end_in(bytes: &[u8]) -> Option<usize>
    ensures first { IfSome result (λ at. (at < length bytes.now) × IsWithinLine (take at bytes.now)
        × (bytes.now ≡ take at bytes.now ++ LINE_END ∷ drop (at + 1) bytes.now)) }
    ensures none { result ≡ None → IsWithinLine bytes.now }
{
    memchr(LINE_END, bytes)
}

/// Puts the bytes into the line in place of what was there.
fn put(line: &mut Vec<u8>, bytes: &[u8])
    requires { length bytes.now ≤ vec_capacity line.old }
    ensures items { line.new.items ≡ bytes.now }
    ensures capacity { vec_capacity line.new ≡ vec_capacity line.old }
{
    line.clear();
    for byte in bytes {
        line.push_reserved(*byte);
    }
}

/// How a line ends at the source's end.
fn end_of_input(line: &[u8]) -> LineEnd
    ensures { IsEndOfInput line.now result }
{
    if line.is_empty() {
        LineEnd::Nothing
    } else {
        LineEnd::Unended
    }
}
