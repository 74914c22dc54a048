//! What stands on two disks, told.

ghost use Rattle.std.specs.Prelude.{◌≡◌, ◌≢◌, ◌++◌, ℕ, Ok, Err, OnOk, IfOk};
ghost use Rattle.std.specs.String.{string_bytes};
ghost use Rattle.liq_types.specs.declared.requests.Query.TheVariants.{Pools, System};
ghost use Rattle.liq_types.specs.declared.requests.Request.TheVariants.{Ask};
ghost use Rattle.liq_types.specs.State.{State};
ghost use Rattle.liq_core.specs.Core.{StandsFor};
ghost use Rattle.liq_rule_step.specs.Step.{step};
ghost use Rattle.liq_word_exit.specs.Causes.{WriteCause};
ghost use Rattle.liq_text.specs.Replies.{reply_line};
ghost use Rattle.liq_word_state.specs.State.{standing};
ghost use Rattle.liq_word_state.specs.Writing.{WritesText};

use liq_core::Protocol;
use liq_outside::Sink;
use liq_text::write_reply;
use liq_text_lines::LINE_END;
use liq_types::{NoMemory, Query, Reply};
use liq_word_exit::{Halt, write_text};
use std::alloc::{AllocError, Global};

/// Writes the text of what stands.
pub fn write_standing<K: Sink>(alloc: Global, protocol: &Protocol, out: &mut K) -> Result<(), Halt>
    ensures written { (s : State) → StandsFor protocol.now s
        → WritesText (Ok (standing s)) result (K.at out.old).held (K.at out.new).held }
    ensures no_disk { result ≢ Err Halt.DiskFault }
    ensures no_source { result ≢ Err Halt.ReadFault }
    ensures no_number { (number : ℕ) → (result ≢ Err (Halt.BadLine number))
        × (result ≢ Err (Halt.Limit number)) × (result ≢ Err (Halt.Rotated number)) }
    ensures sink { WriteCause result (K.at out.old).faults (K.at out.new).faults }
{
    let text = text_of(alloc, protocol)?;
    write_text(out, &text)
}

/// The text of what stands.
#[tactic(auto, unfolding(crate::specs::State::standing))]
fn text_of(alloc: Global, protocol: &Protocol) -> Result<Vec<u8>, NoMemory>
    ensures { IfOk result
        (λ text. (s : State) → StandsFor protocol.now s → text.items ≡ standing s) }
{
    let mut text = Vec::new(alloc);
    put_reply(&protocol.query(&Query::System), &mut text)?;
    put_reply(&protocol.query(&Query::Pools), &mut text)?;
    let lines = pool_and_journal(alloc, protocol)?;
    text.extend_from_slice(lines.as_bytes())?;
    Ok(text)
}

/// The lines of the Stability Pool's words and of the journal, which stand behind the two replies.
fn pool_and_journal(alloc: Global, protocol: &Protocol) -> Result<String, AllocError>
    ensures { IfOk result
        (λ lines. (s : State) → StandsFor protocol.now s
        → reply_line (step s (Ask System)).1 ++ reply_line (step s (Ask Pools)).1
        ++ string_bytes lines ≡ standing s) }
{
    let words = protocol.pool_words();
    let (p, scale, epoch, sum) = (words.p, words.scale, words.epoch, words.sum);
    let generation = protocol.generation();
    let records = protocol.records();
    format!(in alloc; "pool {p} {scale} {epoch} {sum}\njournal {generation} {records}\n")
}

/// Appends a reply's line.
fn put_reply(reply: &Reply, text: &mut Vec<u8>) -> Result<(), AllocError>
    ensures { OnOk result (text.new.items ≡ text.old.items ++ reply_line reply.now) }
{
    if write_reply(reply, text).is_err() {
        return Err(AllocError);
    }
    text.push(LINE_END)?;
    Ok(())
}
