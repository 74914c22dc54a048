//! Lines that wait to be written.

ghost use Rattle.std.specs.Prelude.{◌≡◌, ◌≤◌, ◌+◌, ◌++◌, [], length, IfOk, OnOk};
ghost use Rattle.liq_outside.specs.Faults.{HasCause};
ghost use Rattle.liq_text_scripts.specs.Sending.{Sends, line_text};

use itoa::{Buffer, Integer};
use liq_outside::{Failed, Sink};
use liq_text::write_reply;
use liq_text_lines::write_all;
use liq_types::Reply;
use liq_types::amounts::REPLY_BYTES;
use std::alloc::{AllocError, Global};
use std::marker::Model;

/// How many bytes may wait.
const ROOM: usize = 16_384;

/// How many bytes a line may have, its line end counted: no other line has as many as a reply's.
const LINE_ROOM: usize = REPLY_BYTES + 1;

/// A line of the output.
#[derive(Clone, Copy)]
pub(crate) enum Line {
    /// The replies of this session follow.
    Session(u8),
    /// A reply.
    Reply(Reply),
    /// The history follows.
    History,
    /// An entry: its session, and its number among the session's own.
    Entry(u8, u32),
}

/// Lines that wait to be written, in room that was taken before, so that none asks for memory.
/// Contracts see the bytes that wait.
#[derive(Drop)]
pub struct Outbox {
    bytes: Vec<u8>,
}

impl Model for Outbox {
    ghost use Rattle.std.specs.Prelude.{List, ℕ, ◌≤◌, vec_capacity};
    ghost use Rattle.liq_text_scripts.specs.declared.outbox.TheConstants.{ROOM};

    ghost Value = { List ℕ };

    ghost view = { λ o. o.bytes.items };

    ghost invariant = { λ o. ROOM ≤ vec_capacity o.bytes };
}

impl Outbox {
    /// Room in which nothing waits.
    pub fn new(alloc: Global) -> Result<Outbox, AllocError>
        ensures { IfOk result (λ outbox. outbox ≡ []) }
    {
        Ok(Outbox {
            bytes: Vec::with_capacity(alloc, ROOM)?,
        })
    }

    /// Writes all that waits.
    pub(crate) fn flush<K: Sink>(&mut self, out: &mut K) -> Result<(), Failed>
        ensures sends { Sends result self.old [] self.new (K.at out.old).held (K.at out.new).held }
        ensures empty { self.new ≡ [] }
        ensures cause { HasCause (K.at out.old).faults (K.at out.new).faults result }
        ensures unshown { (K.at out.new).shown ≡ (K.at out.old).shown }
    {
        let written = write_all(out, &self.bytes);
        self.bytes.clear();
        written
    }

    /// Puts the line behind those that wait. Where there is no room for it, what waits is written
    /// first.
    pub(crate) fn send<K: Sink>(&mut self, line: Line, out: &mut K) -> Result<(), Failed>
        ensures sends { Sends result self.old (line_text line) self.new (K.at out.old).held
            (K.at out.new).held }
        ensures cause { HasCause (K.at out.old).faults (K.at out.new).faults result }
        ensures unshown { (K.at out.new).shown ≡ (K.at out.old).shown }
    {
        if self.bytes.len() > ROOM - LINE_ROOM {
            self.flush(out)?;
        }
        self.put_line(line);
        Ok(())
    }

    fn put_line(&mut self, line: Line)
        requires { length self.old + LINE_ROOM ≤ ROOM }
        ensures { self.new ≡ self.old ++ line_text line }
    {
        match line {
            Line::Session(session) => {
                self.put(b"session ");
                self.put_number(session);
                self.put(b"\n");
            }
            Line::Reply(reply) => self.put_reply(&reply),
            Line::History => self.put(b"history\n"),
            Line::Entry(session, index) => {
                self.put_number(session);
                self.put(b" ");
                self.put_number(index);
                self.put(b"\n");
            }
        }
    }

    fn put_reply(&mut self, reply: &Reply)
        requires { length self.old + LINE_ROOM ≤ ROOM }
        ensures { self.new ≡ self.old ++ line_text (Line.Reply reply.now) }
    {
        if write_reply(reply, &mut self.bytes).is_err() {
            unreachable!();
        }
        self.put(b"\n");
    }

    fn put_number<I: Integer>(&mut self, number: I)
        requires { length self.old + I.MAX_STR_LEN ≤ ROOM }
        ensures number { self.new ≡ self.old ++ I.text number }
        ensures short { length self.new ≤ length self.old + I.MAX_STR_LEN }
    {
        self.put(Buffer::new().format(number).as_bytes());
    }

    fn put(&mut self, piece: &[u8])
        requires { length self.old + length piece.now ≤ ROOM }
        ensures { self.new ≡ self.old ++ piece.now }
    {
        if self.bytes.extend_from_slice(piece).is_err() {
            unreachable!();
        }
    }
}
