//! Why reading stops.

ghost use Rattle.std.specs.Prelude.{◌≡◌};

use liq_types::NoMemory;

/// Why the lines of a source were not read to its end.
#[derive(Clone, Copy)]
pub enum Stop {
    /// The line of this number, counted from 1, says nothing that is asked for.
    BadLine(u64),
    /// The source met a fault.
    ReadFault,
    /// There was no memory.
    NoMemory,
    /// There are more lines than are read.
    Limit,
}

impl From<NoMemory> for Stop {
    ghost use Rattle.liq_text_lines.specs.declared.stops.Stop.{Stop};

    ghost from_gives = { λ _ stop. stop ≡ Stop.NoMemory };

    fn from(_: NoMemory) -> Stop {
        Stop::NoMemory
    }
}
