//! Replies that wait to be written.

ghost use Rattle.std.specs.Prelude.{◌≡◌, ◌≤◌, ◌<◌, ◌+◌, ◌++◌, ◌⊎◌, [], IsSome, OnOk, vec_len, vec_capacity};
ghost use Rattle.liq_word_exit.specs.Causes.{WriteCause};
ghost use Rattle.liq_word_run.specs.Writing.{WritesFront};
ghost use Rattle.liq_text.specs.Replies.{reply_line};

use liq_outside::{Failed, Sink};
use liq_text::write_reply;
use liq_text_lines::{LINE_END, write_all};
use liq_types::Reply;
use liq_types::amounts::REPLY_BYTES;
use liq_word_exit::Halt;

/// How many bytes of replies may wait.
pub const WAITING_MOST: usize = 16_384;

/// Writes all that waits. Nothing waits then, also where the sink met a fault.
pub fn flush<K: Sink>(waiting: &mut Vec<u8>, out: &mut K) -> Result<(), Halt>
    ensures written { WritesFront result waiting.old.items waiting.new.items
        (K.at out.old).held (K.at out.new).held }
    ensures empty { waiting.new.items ≡ [] }
    ensures capacity { vec_capacity waiting.new ≡ vec_capacity waiting.old }
    ensures cause { WriteCause result (K.at out.old).faults (K.at out.new).faults }
    ensures unshown { (K.at out.new).shown ≡ (K.at out.old).shown }
{
    let written = write_all(out, waiting);
    waiting.clear();
    match written {
        Ok(()) => Ok(()),
        Err(Failed) => Err(Halt::WriteFault),
    }
}

/// Writes what waits, but where the next line was taken from the source whole, so that the source
/// is not read for it.
pub fn catch_up<K: Sink>(
    whole: Option<usize>,
    waiting: &mut Vec<u8>,
    out: &mut K,
) -> Result<(), Halt>
    ensures written { WritesFront result waiting.old.items waiting.new.items
        (K.at out.old).held (K.at out.new).held }
    ensures taken { OnOk result ((waiting.new.items ≡ []) ⊎ IsSome whole) }
    ensures capacity { vec_capacity waiting.new ≡ vec_capacity waiting.old }
    ensures cause { WriteCause result (K.at out.old).faults (K.at out.new).faults }
    ensures unshown { (K.at out.new).shown ≡ (K.at out.old).shown }
{
    match whole {
        Some(_) => Ok(()),
        None => flush(waiting, out),
    }
}

/// Writes what waits where there is no room for another reply.
pub fn make_room<K: Sink>(waiting: &mut Vec<u8>, out: &mut K) -> Result<(), Halt>
    requires { WAITING_MOST ≤ vec_capacity waiting.old }
    ensures written { WritesFront result waiting.old.items waiting.new.items
        (K.at out.old).held (K.at out.new).held }
    ensures room { OnOk result (vec_len waiting.new + REPLY_BYTES < vec_capacity waiting.new) }
    ensures capacity { vec_capacity waiting.new ≡ vec_capacity waiting.old }
    ensures cause { WriteCause result (K.at out.old).faults (K.at out.new).faults }
    ensures unshown { (K.at out.new).shown ≡ (K.at out.old).shown }
{
    if waiting.len() < WAITING_MOST - REPLY_BYTES {
        Ok(())
    } else {
        flush(waiting, out)
    }
}

/// Puts the reply's line behind those that wait.
pub fn keep(reply: &Reply, waiting: &mut Vec<u8>)
    requires { vec_len waiting.old + REPLY_BYTES < vec_capacity waiting.old }
    ensures line { waiting.new.items ≡ waiting.old.items ++ reply_line reply.now }
    ensures capacity { vec_capacity waiting.old ≤ vec_capacity waiting.new }
{
    if write_reply(reply, waiting).is_err() {
        unreachable!();
    }
    waiting.push_reserved(LINE_END);
}
