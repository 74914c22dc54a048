//! A text, written whole.

ghost use Rattle.std.specs.Prelude.{◌≡◌, ◌≢◌, ℕ, Err, OnOk, IfErr};
ghost use Rattle.liq_text_lines.specs.Writing.{Writes, WritesPart};
ghost use Rattle.liq_word_exit.specs.Causes.{WriteCause};
ghost use Rattle.liq_word_exit.specs.Rest.{WritesRest};

use crate::halts::Halt;
use liq_outside::{Failed, Sink};
use liq_text_lines::write_all;

/// Writes a text.
pub fn write_text<K: Sink>(out: &mut K, text: &[u8]) -> Result<(), Halt>
    ensures ok { OnOk result (Writes (K.at out.old).held text.now (K.at out.new).held) }
    ensures err { IfErr result
        (λ halt. (halt ≡ Halt.WriteFault)
        × WritesPart (K.at out.old).held text.now (K.at out.new).held) }
    ensures sink { WriteCause result (K.at out.old).faults (K.at out.new).faults }
{
    match write_all(out, text) {
        Ok(()) => Ok(()),
        Err(Failed) => Err(Halt::WriteFault),
    }
}

/// Writes what waits where a word ends, and says how it ends then. Behind a fault of the sink
/// nothing is written.
pub fn write_rest<K: Sink>(out: &mut K, rest: &[u8], end: Result<(), Halt>) -> Result<(), Halt>
    ensures written { end ≢ Err Halt.WriteFault
        → WritesRest end rest.now (K.at out.old).held (K.at out.new).held result }
    ensures shut { end ≡ Err Halt.WriteFault → (result ≡ end) × (out.new ≡ out.old) }
    ensures unshown { (K.at out.new).shown ≡ (K.at out.old).shown }
    ensures sink { (count : ℕ) → WriteCause end count (K.at out.old).faults
        → WriteCause result count (K.at out.new).faults }
{
    match end {
        Err(Halt::WriteFault) => Err(Halt::WriteFault),
        _ => match write_all(out, rest) {
            Ok(()) => end,
            Err(Failed) => Err(Halt::WriteFault),
        },
    }
}
