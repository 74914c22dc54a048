//! Batches of commands, queries and lines.

ghost use Rattle.std.specs.Prelude.{◌≡◌, length};
ghost use Rattle.liq_types.specs.State.{State};
ghost use Rattle.liq_core.specs.Core.{StandsFor};
ghost use Rattle.liq_batch.specs.Batch.{asking, doing, previewing};
ghost use Rattle.liq_batch.specs.Numbering.{Numbers};
ghost use Rattle.liq_batch.specs.Texts.{AnsweredText};
ghost use Rattle.liq_c.specs.Statuses.{Ends, EndsBy, EndsText, EndsUnchanged};

use crate::slot::Slot;
use crate::statuses::{Done, TextDone};
use liq_batch::{Command96, Query64, answer_lines, ask_all, do_all, next_all, preview_all};
use liq_replies96::Reply96;
use std::alloc::Global;

/// Answers commands in order, as [`do_all`] says.
#[unsafe(no_mangle)]
pub extern "C" fn liq_do(
    alloc: Global,
    slot: &mut Slot,
    commands: &[Command96],
    replies: &mut [Reply96],
) -> Done
    ensures { EndsBy doing slot.old.inside.held slot.new.inside.held commands.now result
        replies.old replies.new }
{
    let Some(mut market) = slot.take(alloc) else {
        return Done::NONE;
    };
    let batch = do_all(&mut market, commands, replies);
    *slot = Slot::of(market);
    Done::of(&batch, commands.len())
}

/// The same of commands that get their numbers, as [`next_all`] says.
#[unsafe(no_mangle)]
pub extern "C" fn liq_next(
    alloc: Global,
    slot: &mut Slot,
    commands: &mut [Command96],
    replies: &mut [Reply96],
) -> Done
    ensures { Ends slot.old.inside.held slot.new.inside.held (length commands.old) result
        ((replies.new ≡ replies.old) × (commands.new ≡ commands.old))
        (λ m after batch. (s : State) → StandsFor m.core s → Numbers
        s commands.old commands.new batch m after replies.old replies.new) }
{
    let Some(mut market) = slot.take(alloc) else {
        return Done::NONE;
    };
    let count = commands.len();
    let batch = next_all(&mut market, commands, replies);
    *slot = Slot::of(market);
    Done::of(&batch, count)
}

/// Answers queries in order, as [`ask_all`] says. The market is as it was.
#[unsafe(no_mangle)]
pub extern "C" fn liq_ask(
    alloc: Global,
    slot: &mut Slot,
    queries: &[Query64],
    replies: &mut [Reply96],
) -> Done
    ensures { EndsUnchanged asking slot.old.inside.held slot.new.inside.held queries.now result
        replies.old replies.new }
{
    let Some(market) = slot.take(alloc) else {
        return Done::NONE;
    };
    let batch = ask_all(&market, queries, replies);
    *slot = Slot::of(market);
    Done::of(&batch, queries.len())
}

/// Gives the reply that each command would have, as [`preview_all`] says. The market is as it was.
#[unsafe(no_mangle)]
pub extern "C" fn liq_preview(
    alloc: Global,
    slot: &mut Slot,
    commands: &[Command96],
    replies: &mut [Reply96],
) -> Done
    ensures { EndsUnchanged previewing slot.old.inside.held slot.new.inside.held commands.now result
        replies.old replies.new }
{
    let Some(market) = slot.take(alloc) else {
        return Done::NONE;
    };
    let batch = preview_all(&market, commands, replies);
    *slot = Slot::of(market);
    Done::of(&batch, commands.len())
}

/// Answers the lines of a text, as [`answer_lines`] says.
#[unsafe(no_mangle)]
pub extern "C" fn liq_lines(alloc: Global, slot: &mut Slot, text: &[u8], out: &mut [u8]) -> TextDone
    ensures { EndsText slot.old.inside.held slot.new.inside.held result (out.new ≡ out.old)
        (λ m after lines. (s : State) → StandsFor m.core s → AnsweredText
        s text.now lines m after out.old out.new) }
{
    let Some(mut market) = slot.take(alloc) else {
        return TextDone::NONE;
    };
    let lines = answer_lines(alloc, &mut market, text, out);
    *slot = Slot::of(market);
    TextDone::of(&lines)
}
