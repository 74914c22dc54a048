//! How a call ended, for C.

ghost use Rattle.std.specs.Prelude.{◌≡◌};
ghost use Rattle.liq_batch.specs.declared.batch.Batch.{Batch};
ghost use Rattle.liq_batch.specs.declared.lines.Lines.{Lines};
ghost use Rattle.liq_c.specs.Statuses.{told, told_text};

use liq_batch::{Batch, Fault, LineFault, Lines};

/// All is done.
pub const OK: u32 = 0;

/// There is no market in the place.
pub const NO_MARKET: u32 = 1;

/// There is no memory.
pub const NO_MEMORY: u32 = 2;

/// The bytes that were given are not what the call asks for: no command, query, line or save.
pub const BAD: u32 = 3;

/// There are fewer places than items, or less room than bytes.
pub const SHORT: u32 = 4;

/// How a call that answers items ended.
#[repr(C)]
#[derive(Clone, Copy)]
pub struct Done {
    /// How many were answered.
    pub done: usize,
    pub status: u32,
}

impl Done {
    /// On a place without a market nothing is answered.
    pub const NONE: Done = Done {
        done: 0,
        status: NO_MARKET,
    };

    /// A batch of so many items.
    pub fn of(batch: &Batch, items: usize) -> Done
        ensures { result ≡ told batch.now items }
    {
        let status = match batch.fault {
            None if batch.done < items => SHORT,
            None => OK,
            Some(Fault::Bad(_)) => BAD,
            Some(Fault::NoMemory) => NO_MEMORY,
        };
        Done {
            done: batch.done,
            status,
        }
    }
}

/// How a call that answers lines ended.
#[repr(C)]
#[derive(Clone, Copy)]
pub struct TextDone {
    /// How many bytes of lines were answered.
    pub taken: usize,
    /// How many bytes of replies were written.
    pub written: usize,
    pub status: u32,
}

impl TextDone {
    /// On a place without a market nothing is answered.
    pub const NONE: TextDone = TextDone {
        taken: 0,
        written: 0,
        status: NO_MARKET,
    };

    pub fn of(lines: &Lines) -> TextDone
        ensures { result ≡ told_text lines.now }
    {
        let status = match lines.fault {
            None => OK,
            Some(LineFault::Short) => SHORT,
            Some(LineFault::Bad) => BAD,
            Some(LineFault::NoMemory) => NO_MEMORY,
        };
        TextDone {
            taken: lines.taken,
            written: lines.written,
            status,
        }
    }
}
