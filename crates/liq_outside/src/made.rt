//! Notes of what was done to the bytes of a disk in memory, from which each earlier moment is told.
ghost use Rattle.std.specs.Prelude.{◌≡◌, ◌⊎◌, ◌<◌, ◌≤◌, ◌+◌, ◌^◌, vec_capacity, length, take, drop, OnOk, OnErr};
ghost use Rattle.liq_outside.specs.Disk.{overwritten};
ghost use Rattle.liq_outside.specs.DiskInMemory.{Tried, Wrote};
ghost use Rattle.liq_outside.specs.Made.{IsNotedIn, step_of};

use std::alloc::{AllocError, Global};

// What was done to the bytes. A write keeps what it replaced, so that each earlier moment is known.
#[derive(Drop)]
pub enum Made {
    Wrote(usize, usize, Vec<u8>),
    Tried(usize, usize),
    Synced,
}

// Writes bytes over those from a place on, and keeps what they replaced. An `Err` changes nothing.
pub fn overwrite(
    alloc: Global,
    held: &mut Vec<u8>,
    made: &mut Vec<Made>,
    at: usize,
    bytes: &[u8],
) -> Result<(), AllocError>
    requires inside { at ≤ length held.old.items }
    requires limit { at + length bytes.now ≤ 2 ^ 40 }
    ensures written { OnOk result (held.new.items ≡ overwritten held.old.items at bytes.now) }
    ensures noted { OnOk result (IsNotedIn made.old.items made.new.items
        (Wrote at (length bytes.now) (take (length bytes.now) (drop at held.old.items)))) }
    ensures not_written { OnErr result (held.new.items ≡ held.old.items) }
    ensures not_noted { OnErr result (made.new.items ≡ made.old.items) }
    ensures full { OnErr result ((0 < length bytes.now)
        ⊎ (vec_capacity made.old ≤ length made.old.items)) }
{
    let len = held.len();
    let stop = len.min(at + bytes.len());
    let inside = stop - at;
    let mut over = Vec::new(alloc);
    over.extend_from_slice(&held[at..stop])?;
    held.extend_from_slice(&bytes[inside..])?;
    match note(made, Made::Wrote(at, bytes.len(), over)) {
        Ok(()) => {
            replace(held, at, &bytes[..inside]);
            Ok(())
        }
        Err(error) => {
            held.truncate(len);
            Err(error)
        }
    }
}

// Puts bytes in the place of as many.
fn replace(held: &mut Vec<u8>, at: usize, bytes: &[u8])
    requires { at + length bytes.now ≤ length held.old.items }
    ensures { held.new.items ≡ overwritten held.old.items at bytes.now }
{
    held[at..at + bytes.len()].copy_from_slice(bytes);
}

// Notes a write that failed, where there is room for the note.
pub fn note_try(made: &mut Vec<Made>, at: usize, count: usize)
    ensures { IsNotedIn made.old.items made.new.items (Tried at count)
        ⊎ ((made.new.items ≡ made.old.items) × (vec_capacity made.old ≤ length made.old.items)) }
{
    let _ = note(made, Made::Tried(at, count));
}

// Notes what was done, where there is room for the note or memory for more.
pub fn note(made: &mut Vec<Made>, note: Made) -> Result<(), AllocError>
    ensures noted { OnOk result (IsNotedIn made.old.items made.new.items (step_of note)) }
    ensures not_noted { OnErr result (made.new.items ≡ made.old.items) }
    ensures full { OnErr result (vec_capacity made.old ≤ length made.old.items) }
{
    match made.push(note) {
        Ok(()) => Ok(()),
        Err(_) => Err(AllocError),
    }
}
