//! Each trove and deposit that stands on two disks, told.

ghost use Rattle.std.specs.Prelude.{◌≡◌, ◌≢◌, ℕ, Ok, Err, IfOk};
ghost use Rattle.liq_types.specs.State.{State};
ghost use Rattle.liq_core.specs.Core.{StandsFor};
ghost use Rattle.liq_word_exit.specs.Causes.{WriteCause};
ghost use Rattle.liq_word_state.specs.Report.{reported};
ghost use Rattle.liq_word_state.specs.Writing.{WritesText};

use liq_core::Protocol;
use liq_outside::Sink;
use liq_report::report;
use liq_text_lines::LINE_END;
use liq_types::NoMemory;
use liq_word_exit::{Halt, write_text};
use std::alloc::Global;

/// Writes the report of what stands, as a line.
pub fn write_report<K: Sink>(alloc: Global, protocol: &Protocol, out: &mut K) -> Result<(), Halt>
    ensures written { (s : State) → StandsFor protocol.now s
        → WritesText (Ok (reported s)) result (K.at out.old).held (K.at out.new).held }
    ensures no_disk { result ≢ Err Halt.DiskFault }
    ensures no_source { result ≢ Err Halt.ReadFault }
    ensures no_number { (number : ℕ) → (result ≢ Err (Halt.BadLine number))
        × (result ≢ Err (Halt.Limit number)) × (result ≢ Err (Halt.Rotated number)) }
    ensures sink { WriteCause result (K.at out.old).faults (K.at out.new).faults }
{
    let line = line_of(alloc, protocol)?;
    write_text(out, &line)
}

/// The report of what stands, with its line end.
fn line_of(alloc: Global, protocol: &Protocol) -> Result<Vec<u8>, NoMemory>
    ensures { IfOk result
        (λ line. (s : State) → StandsFor protocol.now s → line.items ≡ reported s) }
{
    let mut line = report(alloc, protocol)?;
    match line.push(LINE_END) {
        Ok(()) => Ok(line),
        Err(_) => Err(NoMemory),
    }
}
