//! Lines of a source, gathered one by one.

ghost use Rattle.std.specs.Prelude.{◌≡◌, ◌≤◌, ◌<◌, ◌+◌, [], ℕ, List, Option, Some, length, vec_capacity, IsOkUnless, IfOk};
ghost use Rattle.std.specs.List.{AllZip};
ghost use Rattle.liq_outside.specs.Faults.{Rose};
ghost use Rattle.liq_text_lines.specs.Lines.{lines_in};
ghost use Rattle.liq_text_lines.specs.Reading.{unread, taken_most, ReadsAtMost, ReadsFew};
ghost use Rattle.liq_text_gather.specs.Gathering.{Gathers, ReadCause};
ghost use Rattle.liq_text_gather.specs.Progress.{HasGathered, Goes};

use crate::gatherer::Gatherer;
use liq_outside::{Failed, Source};
use liq_text_lines::{LineEnd, Reader, Stop};
use liq_types::NoMemory;
use liq_types::amounts::{LINE_BYTES, LINES_MOST};
use std::alloc::Global;

/// Reads the source to its end and gathers what each line says, in order. It stops at the first of
/// these:
///
/// - [`Stop::BadLine`]: the line of this number, counted from 1, says nothing;
/// - [`Stop::ReadFault`]: the source met a fault;
/// - [`Stop::NoMemory`]: there was no memory;
/// - [`Stop::Limit`]: a line behind the last that is answered begins.
pub fn gather_into<G: Gatherer, S: Source>(
    alloc: Global,
    gatherer: &mut G,
    input: &mut S,
) -> Result<(), Stop>
    requires { G.holds gatherer.old [] }
    ensures read { Gathers G.says (λ done. G.holds gatherer.new) result (S.at input.old).left
        (S.at input.new).left }
    // At most as many lines are taken from the source as are read, and what one read asks for.
    ensures takes { ReadsAtMost (taken_most LINES_MOST) (S.at input.old).left
        (S.at input.new).left }
    ensures source { ReadCause result (S.at input.old).faults (S.at input.new).faults }

    // Where each line says something, none is too many and the source meets no fault, memory alone
    // can be missing.
    ensures complete { (bytes : List ℕ) → (S.at input.old).left ≡ Some bytes → (said : List G.Item)
        → AllZip G.says (lines_in bytes) said → length said ≤ LINES_MOST
        → (Rose (S.at input.old).faults (S.at input.new).faults → ⊥)
        → IsOkUnless result Stop.NoMemory }
{
    let (mut reader, mut line) = buffers(alloc)?;
    read_lines(&mut reader, &mut line, input, gatherer)
}

/// What is read into: a reader that has taken nothing, and room for a line.
fn buffers(alloc: Global) -> Result<(Reader, Vec<u8>), NoMemory>
    ensures { IfOk result (λ b. (b.0 ≡ []) × (LINE_BYTES ≤ vec_capacity b.1)) }
{
    let reader = Reader::new(alloc)?;
    let line = Vec::with_capacity(alloc, LINE_BYTES)?;
    Ok((reader, line))
}

/// Reads the lines to the source's end.
fn read_lines<G: Gatherer, S: Source>(
    reader: &mut Reader,
    line: &mut Vec<u8>,
    input: &mut S,
    gatherer: &mut G,
) -> Result<(), Stop>
    requires unread { reader.old ≡ [] }
    requires room { LINE_BYTES ≤ vec_capacity line.old }
    requires blank { G.holds gatherer.old [] }
    ensures read { Gathers G.says (λ done. G.holds gatherer.new) result (S.at input.old).left
        (S.at input.new).left }
    ensures takes { ReadsAtMost (taken_most LINES_MOST) (S.at input.old).left
        (S.at input.new).left }
    ensures source { ReadCause result (S.at input.old).faults (S.at input.new).faults }
{
    for read in 0..LINES_MOST {
        if !read_next(reader, line, input, gatherer, read)? {
            return Ok(());
        }
    }
    match reader.next_byte(input) {
        Ok(None) => Ok(()),
        Ok(Some(_)) => Err(Stop::Limit),
        Err(Failed) => Err(Stop::ReadFault),
    }
}

/// Reads the next line, of which there are `read` before it, and says whether another may follow.
/// Behind a line that says nothing, nothing is read.
fn read_next<G: Gatherer, S: Source>(
    reader: &mut Reader,
    line: &mut Vec<u8>,
    input: &mut S,
    gatherer: &mut G,
    read: u64,
) -> Result<bool, Stop>
    requires few { read < LINES_MOST }
    requires room { LINE_BYTES ≤ vec_capacity line.old }
    ensures goes { (start : Option (List ℕ))
        → HasGathered G.says G.holds start read gatherer.old
        (unread reader.old (S.at input.old).left)
        → Goes G.says G.holds start read gatherer.new (unread reader.new (S.at input.new).left)
        (S.at input.new).left result }
    ensures takes { (before : Option (List ℕ))
        → ReadsFew before read reader.old (S.at input.old).left
        → ReadsFew before (read + 1) reader.new (S.at input.new).left }
    ensures room { vec_capacity line.new ≡ vec_capacity line.old }
    ensures source { ReadCause result (S.at input.old).faults (S.at input.new).faults }
{
    match reader.next_line(input, line) {
        Err(Failed) => Err(Stop::ReadFault),
        Ok(LineEnd::Nothing) => Ok(false),
        Ok(LineEnd::TooLong) => Err(Stop::BadLine(read + 1)),
        Ok(LineEnd::Ended) => {
            gatherer.keep(line, read + 1)?;
            Ok(true)
        }
        Ok(LineEnd::Unended) => {
            gatherer.keep(line, read + 1)?;
            Ok(false)
        }
    }
}
