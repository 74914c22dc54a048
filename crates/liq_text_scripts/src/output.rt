//! A history, written.

ghost use Rattle.std.specs.Prelude.{ℕ, ◌≡◌, ◌==◌, ◌<◌, [], false, get_or, map, OnOk, OnErr};
ghost use Rattle.std.specs.List.{flat_map, list_any};
ghost use Rattle.liq_outside.specs.Faults.{HasCause};
ghost use Rattle.liq_rule_step.specs.History.{Entry, own_entries};
ghost use Rattle.liq_text_lines.specs.Writing.{Writes, WritesPart};
ghost use Rattle.liq_text_scripts.specs.Output.{served, session_text};
ghost use Rattle.liq_text_scripts.specs.Sending.{Sends, part_text, replies_text, history_text};

use crate::outbox::{Line, Outbox};
use crate::scripts::SESSIONS;
use liq_outside::{Failed, Sink};
use liq_types::Reply;

/// What the output shows of a history's entry.
pub trait ShownEntry {
    /// The entry.
    ghost entry: { Self → Entry };

    /// Who asked, from 1 to 8.
    fn session(&self) -> u8
        ensures { result ≡ (entry self.now).session };

    /// Which of the session's own calls it was, counted from 1.
    fn index(&self) -> u32
        ensures { result ≡ (entry self.now).index };

    /// What was answered.
    fn reply(&self) -> Reply
        ensures { result ≡ (entry self.now).reply };
}

/// What of an entry is written.
#[derive(Clone, Copy)]
pub(crate) enum Part {
    /// The reply, where the entry is this session's.
    ReplyTo(u8),
    /// Whose call it was, and which of its own.
    Call,
}

/// Writes a history: the replies of each session that has any, and then the entries. Where the sink
/// meets a fault, it holds a part of it. No memory is asked for.
pub fn write_served<E: ShownEntry, K: Sink>(
    entries: &[E],
    outbox: &mut Outbox,
    out: &mut K,
) -> Result<(), Failed>
    requires { outbox.old ≡ [] }
    ensures ok { OnOk result
        (Writes (K.at out.old).held (served (map E.entry entries.now)) (K.at out.new).held) }
    ensures err { OnErr result
        (WritesPart (K.at out.old).held (served (map E.entry entries.now)) (K.at out.new).held) }
    ensures cause { HasCause (K.at out.old).faults (K.at out.new).faults result }
    ensures unshown { (K.at out.new).shown ≡ (K.at out.old).shown }
{
    send_replies(entries, outbox, out)?;
    outbox.send(Line::History, out)?;
    send_entries(entries, outbox, out)?;
    outbox.flush(out)
}

/// Sends the replies of all sessions.
fn send_replies<E: ShownEntry, K: Sink>(
    entries: &[E],
    outbox: &mut Outbox,
    out: &mut K,
) -> Result<(), Failed>
    ensures sends { Sends result outbox.old (replies_text (map E.entry entries.now)) outbox.new
        (K.at out.old).held (K.at out.new).held }
    ensures cause { HasCause (K.at out.old).faults (K.at out.new).faults result }
    ensures unshown { (K.at out.new).shown ≡ (K.at out.old).shown }
{
    let has_entries = have_entries(entries);
    for before in 0..SESSIONS {
        let session = before + 1;
        send_session(
            entries,
            session,
            has_entries[usize::from(session)],
            outbox,
            out,
        )?;
    }
    Ok(())
}

/// Sends the replies of one session, if it has any.
fn send_session<E: ShownEntry, K: Sink>(
    entries: &[E],
    session: u8,
    has_entries: bool,
    outbox: &mut Outbox,
    out: &mut K,
) -> Result<(), Failed>
    requires known { has_entries ≡ list_any (λ e. (E.entry e).session == session) entries.now }
    ensures sends { Sends result outbox.old
        (session_text session (own_entries session (map E.entry entries.now))) outbox.new
        (K.at out.old).held (K.at out.new).held }
    ensures cause { HasCause (K.at out.old).faults (K.at out.new).faults result }
    ensures unshown { (K.at out.new).shown ≡ (K.at out.old).shown }
{
    if !has_entries {
        return Ok(());
    }
    outbox.send(Line::Session(session), out)?;
    send_each(entries, Part::ReplyTo(session), outbox, out)
}

/// For each number of a session, whether some entry is that session's: one look at each entry.
fn have_entries<E: ShownEntry>(entries: &[E]) -> [bool; 256]
    ensures { (session : ℕ) → session < 256 → get_or result session false
        ≡ list_any (λ e. (E.entry e).session == session) entries.now }
{
    let mut has_entries = [false; 256];
    for entry in entries {
        has_entries[usize::from(entry.session())] = true;
    }
    has_entries
}

/// Sends the line of each entry.
fn send_entries<E: ShownEntry, K: Sink>(
    entries: &[E],
    outbox: &mut Outbox,
    out: &mut K,
) -> Result<(), Failed>
    ensures sends { Sends result outbox.old (history_text (map E.entry entries.now)) outbox.new
        (K.at out.old).held (K.at out.new).held }
    ensures cause { HasCause (K.at out.old).faults (K.at out.new).faults result }
    ensures unshown { (K.at out.new).shown ≡ (K.at out.old).shown }
{
    send_each(entries, Part::Call, outbox, out)
}

/// Sends this part of each entry.
fn send_each<E: ShownEntry, K: Sink>(
    entries: &[E],
    part: Part,
    outbox: &mut Outbox,
    out: &mut K,
) -> Result<(), Failed>
    ensures sends { Sends result outbox.old (flat_map (λ e. part_text part (E.entry e)) entries.now)
        outbox.new (K.at out.old).held (K.at out.new).held }
    ensures cause { HasCause (K.at out.old).faults (K.at out.new).faults result }
    ensures unshown { (K.at out.new).shown ≡ (K.at out.old).shown }
{
    for entry in entries {
        send_part(entry, part, outbox, out)?;
    }
    Ok(())
}

/// Sends this part of an entry.
fn send_part<E: ShownEntry, K: Sink>(
    entry: &E,
    part: Part,
    outbox: &mut Outbox,
    out: &mut K,
) -> Result<(), Failed>
    ensures sends { Sends result outbox.old (part_text part (E.entry entry.now)) outbox.new
        (K.at out.old).held (K.at out.new).held }
    ensures cause { HasCause (K.at out.old).faults (K.at out.new).faults result }
    ensures unshown { (K.at out.new).shown ≡ (K.at out.old).shown }
{
    match part {
        Part::ReplyTo(session) => send_own(entry, session, outbox, out),
        Part::Call => outbox.send(Line::Entry(entry.session(), entry.index()), out),
    }
}

/// Sends the reply that the entry has, if it is the session's.
fn send_own<E: ShownEntry, K: Sink>(
    entry: &E,
    session: u8,
    outbox: &mut Outbox,
    out: &mut K,
) -> Result<(), Failed>
    ensures sends { Sends result outbox.old (part_text (Part.ReplyTo session) (E.entry entry.now))
        outbox.new (K.at out.old).held (K.at out.new).held }
    ensures cause { HasCause (K.at out.old).faults (K.at out.new).faults result }
    ensures unshown { (K.at out.new).shown ≡ (K.at out.old).shown }
{
    if entry.session() != session {
        return Ok(());
    }
    outbox.send(Line::Reply(entry.reply()), out)
}
