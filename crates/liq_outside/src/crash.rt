//! What a crash leaves of a disk in memory: the ranges that were written since the last sync, torn.
ghost use Rattle.std.specs.Prelude.{◌≡◌, length};
ghost use Rattle.liq_outside.specs.DiskInMemory.{AreWrites, MayBeLeft, StaysLeft};
ghost use Rattle.liq_outside.specs.Made.{steps_of};

use super::made::Made;

// Tears the bytes that these notes wrote since the last sync. The choice says how.
pub fn tear(bytes: &mut Vec<u8>, notes: Vec<Made>, choice: u64)
    requires { AreWrites bytes.old.items (steps_of notes.items) }
    ensures { MayBeLeft bytes.old.items (steps_of notes.items) bytes.new.items }
{
    let mut notes = notes;
    let mut least = bytes.len();
    while let Some(note) = notes.pop() {
        match note {
            Made::Synced => break,
            Made::Tried(at, count) => tear_range(bytes, at, count, &[], choice),
            Made::Wrote(at, count, over) => {
                tear_range(bytes, at, count, &over, choice);
                let behind = least.saturating_sub(at).saturating_sub(count);
                least = least.min(at) + over.len() + behind;
            }
        }
    }
    let more = bytes.len().saturating_sub(least);
    match choice % 4 {
        1 => bytes.truncate(least),
        2 => bytes.truncate(least + more / 2),
        _ => {}
    }
}

// Tears a range of bytes, in which these stood before.
fn tear_range(bytes: &mut Vec<u8>, at: usize, count: usize, over: &[u8], choice: u64)
    ensures torn { StaysLeft at count bytes.old.items bytes.new.items }
    ensures length { length bytes.new.items ≡ length bytes.old.items }
{
    let end = at.saturating_add(count).min(bytes.len());
    for place in at..end {
        let now = bytes[place];
        let before = over.get(place - at).copied().unwrap_or(now);
        bytes[place] = torn_byte(choice, place - at, count, before, now);
    }
}

// What is left of byte `index` of a write of `count` bytes: up to choice 3 the new byte or the old
// one, above it the new byte or another one.
fn torn_byte(choice: u64, index: usize, count: usize, before: u8, now: u8) -> u8 {
    let kept = match choice % 4 {
        0 => choice == 0 || index > 0,
        1 => false,
        2 => index < count / 2,
        _ => index >= count / 2,
    };
    match (kept, choice < 4) {
        (true, _) => now,
        (false, true) => before,
        (false, false) => now ^ 0x55,
    }
}
