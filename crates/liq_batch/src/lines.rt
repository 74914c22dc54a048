//! The lines of a text, answered by reply lines.

ghost use Rattle.std.specs.Prelude.{◌≡◌, ◌≤◌, length, OnOk, Some};
ghost use Rattle.std.specs.Vec.{vec_capacity};
ghost use Rattle.liq_types.specs.State.{State};
ghost use Rattle.liq_core.specs.Core.{StandsFor};
ghost use Rattle.liq_batch.specs.Texts.{AnsweredText, AnswersLine};

use liq_market::Market;
use liq_text::{read_line, write_reply};
use liq_text_lines::{LINE_END, line_end_in};
use liq_types::NoMemory;
use liq_types::amounts::REPLY_BYTES;
use std::alloc::Global;

/// The most bytes of a reply's line, its line end counted.
pub const LINE_MOST: usize = REPLY_BYTES + 1;

/// Why a line has no answer. Then nothing changed.
#[derive(Clone, Copy)]
pub enum LineFault {
    /// The longest reply line has no room.
    Short,
    /// It spells no request.
    Bad,
    /// There was no memory.
    NoMemory,
}

/// How a text of lines was answered.
#[derive(Clone, Copy)]
pub struct Lines {
    /// How many of its bytes are lines that were answered, their line ends counted.
    pub taken: usize,
    /// How many bytes of replies were written.
    pub written: usize,
    /// Why the next line was not answered. None: there is no further line end.
    pub fault: Option<LineFault>,
}

/// Answers the lines of a text, each by a line, as long as [`LINE_MOST`] bytes are left in `out`.
/// It stops at the first line that spells no request or for which there is no memory. What stands
/// behind the last line end is left.
pub fn answer_lines(alloc: Global, market: &mut Market, text: &[u8], out: &mut [u8]) -> Lines
    ensures { (s : State) → StandsFor market.old.core s
        → AnsweredText s text.now result market.old market.new out.old out.new }
{
    let mut taken = 0;
    let mut written = 0;
    let Ok(mut reply) = Vec::with_capacity(alloc, LINE_MOST) else {
        return stopped(taken, written, LineFault::NoMemory);
    };
    while let Some(size) = line_end_in(&text[taken..]) {
        if out.len() - written < LINE_MOST {
            return stopped(taken, written, LineFault::Short);
        }
        if let Err(fault) = answer_line(market, &text[taken..taken + size], &mut reply) {
            return stopped(taken, written, fault);
        }
        out[written..written + reply.len()].copy_from_slice(&reply);
        written += reply.len();
        taken += size + 1;
    }
    let fault = None;
    Lines {
        taken,
        written,
        fault,
    }
}

fn stopped(taken: usize, written: usize, fault: LineFault) -> Lines
    ensures { result ≡ record { taken = taken; written = written; fault = Some fault } }
{
    let fault = Some(fault);
    Lines {
        taken,
        written,
        fault,
    }
}

/// Writes the reply line to the request on a line.
fn answer_line(market: &mut Market, line: &[u8], reply: &mut Vec<u8>) -> Result<(), LineFault>
    requires { LINE_MOST ≤ vec_capacity reply.old }
    ensures answered { (s : State) → StandsFor market.old.core s
        → AnswersLine s line.now result reply.new.items market.old market.new }
    ensures short { OnOk result (length reply.new.items ≤ LINE_MOST) }
    ensures capacity { LINE_MOST ≤ vec_capacity reply.new }
{
    let Ok(request) = read_line(line) else {
        return Err(LineFault::Bad);
    };
    let answer = match market.answer(&request) {
        Ok(answer) => answer,
        Err(NoMemory) => return Err(LineFault::NoMemory),
    };
    reply.clear();
    // There is room, so neither fails.
    let _ = write_reply(&answer, reply);
    let _ = reply.push(LINE_END);
    Ok(())
}
