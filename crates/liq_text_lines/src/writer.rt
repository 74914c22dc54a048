//! Writing a whole piece, in as many calls as the sink wants.

ghost use Rattle.std.specs.Prelude.{◌≡◌, ◌≤◌, OnOk, OnErr};
ghost use Rattle.liq_outside.specs.Faults.{HasCause};
ghost use Rattle.liq_text_lines.specs.Writing.{Writes, WritesPart};

use liq_outside::{Failed, Sink};

/// Writes all of the bytes, in as many calls as the sink wants.
pub fn write_all<K: Sink>(out: &mut K, bytes: &[u8]) -> Result<(), Failed>
    ensures ok { OnOk result (Writes (K.at out.old).held bytes.now (K.at out.new).held) }
    ensures err { OnErr result (WritesPart (K.at out.old).held bytes.now (K.at out.new).held) }
    ensures cause { HasCause (K.at out.old).faults (K.at out.new).faults result }
    ensures unshown { (K.at out.new).shown ≡ (K.at out.old).shown }
{
    let mut written = 0;
    while written < bytes.len() {
        written += out.write(&bytes[written..])?;
    }
    Ok(())
}
