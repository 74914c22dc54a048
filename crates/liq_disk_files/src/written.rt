//! What is written to standard output, which may be one of the two files.
ghost use Rattle.std.specs.Prelude.{◌≡◌, ◌↔◌, None, false, IfSome, IsErr, IsSome, IsTrue};
ghost use Rattle.std.specs.Io.{WritesAtMost};
ghost use Rattle.liq_disk_files.specs.Output.{IsNeither, IsNotOutput, MayBeOne, MayBeOutput};
ghost use Rattle.liq_disk_files.specs.Taking.{MayBe};

use crate::calls::{Name, Refusal, Stream};
use crate::found::FileId;
use crate::system::System;
use std::io::{self, ErrorKind, Write};

/// A writer, or none: then each write fails.
#[derive(Drop)]
pub struct Written<W> {
    writer: Option<W>,
}

/// What is written to standard output goes to this writer, or nowhere where standard output is one
/// of the two files, or may be one: no reply and no last line is written over a journal.
pub fn standard_output<S: System, W: Write + Drop>(system: &mut S, writer: W) -> Written<W>
    ensures whole { IfSome result.writer (λ w. w ≡ writer) }
    ensures written { S.tells → IsSome result.writer
        → IsNeither (S.asked system.old) (S.asked system.new) }
    ensures nowhere { S.tells → result.writer ≡ None
        → MayBeOne (S.asked system.old) (S.asked system.new) }
{
    if is_output(system, Name::Left) || is_output(system, Name::Right) {
        return Written { writer: None };
    }
    Written {
        writer: Some(writer),
    }
}

/// Whether standard output is, or may be, the file to which the name leads.
fn is_output<S: System>(system: &mut S, name: Name) -> bool
    ensures may { S.tells → IsTrue result
        → MayBeOutput name (S.asked system.old) (S.asked system.new) }
    ensures not { S.tells → result ≡ false
        → IsNotOutput name (S.asked system.old) (S.asked system.new) }
{
    match system.named(name) {
        Ok(found) => may_be(&system.behind(Stream::Output), found.id),
        // Where the name may not be looked up, as in a folder of somebody else's, any regular file
        // may be the one.
        Err(Refusal::Denied) => system.is_regular(Stream::Output),
        Err(_) => false,
    }
}

/// Whether a stream is this file, or may be it, since the system has not said which file the stream
/// is.
fn may_be(stream: &Option<FileId>, file: FileId) -> bool
    ensures { IsTrue result ↔ MayBe stream.now file }
{
    match stream {
        Some(found) => *found == file,
        None => true,
    }
}

impl<W: Write> Write for Written<W> {
    fn write(&mut self, buf: &[u8]) -> io::Result<usize>
        ensures bound { WritesAtMost result buf.now }
        ensures nowhere { self.old.writer ≡ None → IsErr result }
    {
        match &mut self.writer {
            Some(writer) => writer.write(buf),
            None => Err(io::Error::from(ErrorKind::PermissionDenied)),
        }
    }

    fn flush(&mut self) -> io::Result<()> {
        match &mut self.writer {
            Some(writer) => writer.flush(),
            None => Ok(()),
        }
    }
}
