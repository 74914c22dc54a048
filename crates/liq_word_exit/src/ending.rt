//! How a run ends: its last line and its status.

ghost use Rattle.std.specs.Prelude.{[], ◌∷◌, ◌++◌, ◌≡◌, ◌≤◌, ℕ, List, Option, Err, decimal, OnOk, OnErr, IfErr};
ghost use Rattle.liq_outside.specs.Faults.{Rose, HasCause};
ghost use Rattle.liq_word_exit.specs.Causes.{LastCause, WriteCause};
ghost use Rattle.liq_word_exit.specs.Unopened.{halt_of};
ghost use Rattle.liq_word_exit.specs.Output.{last, usage};
ghost use Rattle.liq_word_exit.specs.Statuses.{status_of};
ghost use Rattle.liq_word_exit.specs.Stops.{Adds};
ghost use Rattle.liq_word_exit.specs.Telling.{TellsAll};
ghost use Rattle.liq_word_exit.specs.Unsaid.{WritesAll};
ghost use Rattle.liq_text_lines.specs.Writing.{Writes, WritesPart};
ghost use Rattle.liq_store.specs.Keeping.{IsInOrder};

use crate::halts::Halt;
use itoa::Buffer;
use liq_disk_pair::Side;
use liq_outside::{Disk, Failed, Sink};
use liq_store::{Store, StoreFault};
use liq_text_lines::write_all;

/// What is written where the words are not understood.
const USAGE: &[u8] = b"usage: liq run, serve, state, audit or gen SEED COUNT\n";

/// How a word ends, and the disks as it leaves them.
#[derive(Drop)]
pub struct Ending<D> {
    pub end: Result<(), Halt>,
    pub left: D,
    pub right: D,
}

/// How a word ends whose store was not opened: with the disks as they are then.
pub fn end_without_store<D>(fault: StoreFault<D>) -> Ending<D>
    ensures { result
        ≡ record { end = Err (halt_of fault.why); left = fault.left; right = fault.right } }
{
    let StoreFault { left, right, why } = fault;
    let end = Err(Halt::from(why));
    Ending { end, left, right }
}

/// How a word ends over a store, which is closed: with the disks as the store leaves them.
pub fn end_with_store<D: Disk>(store: Store<D>, end: Result<(), Halt>) -> Ending<D>
    ensures is { result ≡ record { end = end; left = store.left; right = store.right } }
    ensures order { IsInOrder D.at store }
{
    let (left, right) = store.close();
    Ending { end, left, right }
}

/// The exit status of a run.
pub fn status(end: &Result<(), Halt>) -> u8
    ensures { result ≡ status_of end.now }
{
    match end {
        Ok(()) => 0,
        Err(Halt::BadLine(_)) => 2,
        Err(Halt::ReadFault) => 3,
        Err(Halt::WriteFault) => 4,
        Err(Halt::DiskFault) => 5,
        Err(Halt::Damaged(..)) => 6,
        Err(Halt::DamagedInput(_)) => 6,
        Err(Halt::NoMemory) => 7,
        Err(Halt::Limit(_)) => 8,
        Err(Halt::Rotated(_)) => 9,
    }
}

/// Writes the last line of a run that stopped. Where it cannot be written whole, the run has
/// stopped all the same.
pub fn write_last<K: Sink>(out: &mut K, halt: Halt)
    ensures written { Adds [] (last halt) (Rose (K.at out.old).faults (K.at out.new).faults)
        (K.at out.old).held (K.at out.new).held }
    ensures count { (K.at out.old).faults ≤ (K.at out.new).faults }
    ensures unshown { (K.at out.new).shown ≡ (K.at out.old).shown }
{
    let _ = match halt {
        Halt::BadLine(number) => write_numbered(out, b"bad line ", u128::from(number)),
        Halt::ReadFault => write_all(out, b"read fault\n"),
        Halt::WriteFault => Ok(()),
        Halt::DiskFault => write_all(out, b"disk fault\n"),
        Halt::Damaged(side, number) => write_damaged(out, side, u128::from(number)),
        Halt::DamagedInput(number) => write_numbered(out, b"damaged input ", u128::from(number)),
        Halt::NoMemory => write_all(out, b"no memory\n"),
        Halt::Limit(number) => write_numbered(out, b"limit ", number),
        Halt::Rotated(generation) => write_numbered(out, b"rotated ", u128::from(generation)),
    };
}

/// Writes the last line of a word where it stopped.
pub fn tell_last<K: Sink>(out: &mut K, end: Result<(), Halt>)
    ensures told { (text : List ℕ) (before : Option (List ℕ)) (count : ℕ)
        → count ≤ (K.at out.old).faults → WritesAll text end before (K.at out.old).held
        → TellsAll text end (Rose count (K.at out.new).faults) before (K.at out.new).held }
    ensures last { IfErr end
        (λ halt. Adds [] (last halt) (Rose (K.at out.old).faults (K.at out.new).faults)
        (K.at out.old).held (K.at out.new).held) }
    ensures same { OnOk end (out.new ≡ out.old) }
    ensures count { (K.at out.old).faults ≤ (K.at out.new).faults }
    ensures sink { (count : ℕ) → WriteCause end count (K.at out.old).faults
        → LastCause end count (K.at out.new).faults }
    ensures unshown { (K.at out.new).shown ≡ (K.at out.old).shown }
{
    if let Err(halt) = end {
        write_last(out, halt);
    }
}

/// Writes which disk is damaged, and at which record.
fn write_damaged<K: Sink>(out: &mut K, side: Side, number: u128) -> Result<(), Failed>
    ensures ok { OnOk result
        (Writes (K.at out.old).held (last (Halt.Damaged side number)) (K.at out.new).held) }
    ensures err { OnErr result
        (WritesPart (K.at out.old).held (last (Halt.Damaged side number)) (K.at out.new).held) }
    ensures cause { HasCause (K.at out.old).faults (K.at out.new).faults result }
    ensures unshown { (K.at out.new).shown ≡ (K.at out.old).shown }
{
    match side {
        Side::Left => write_numbered(out, b"damaged left ", number),
        Side::Right => write_numbered(out, b"damaged right ", number),
    }
}

/// Writes a line of a text and a number.
fn write_numbered<K: Sink>(out: &mut K, text: &[u8], number: u128) -> Result<(), Failed>
    ensures ok { OnOk result
        (Writes (K.at out.old).held (text.now ++ (decimal number ++ 10 ∷ [])) (K.at out.new).held) }
    ensures err { OnErr result
        (WritesPart (K.at out.old).held (text.now ++ (decimal number ++ 10 ∷ []))
        (K.at out.new).held) }
    ensures cause { HasCause (K.at out.old).faults (K.at out.new).faults result }
    ensures unshown { (K.at out.new).shown ≡ (K.at out.old).shown }
{
    let mut digits = Buffer::new();
    write_all(out, text)?;
    write_all(out, digits.format(number).as_bytes())?;
    write_all(out, b"\n")
}

/// Writes how the program is used.
pub fn write_usage<K: Sink>(out: &mut K)
    ensures written { Adds [] usage (Rose (K.at out.old).faults (K.at out.new).faults)
        (K.at out.old).held (K.at out.new).held }
    ensures count { (K.at out.old).faults ≤ (K.at out.new).faults }
{
    let _ = write_all(out, USAGE);
}
