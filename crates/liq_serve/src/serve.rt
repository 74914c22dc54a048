//! How `serve` ends, and how a word ends whose input was not read to its end.

ghost use Rattle.std.specs.Prelude.{◌≡◌};
ghost use Rattle.liq_types.specs.declared.amounts.TheConstants.{LINES_MOST};
ghost use Rattle.liq_serve.specs.Finishing.{end_of, halt_at};

use liq_text_scripts::Stop;
use liq_types::amounts::LINES_MOST;
use liq_word_exit::Halt;
use liq_word_serve::Finish;

/// How the program ends that served an input.
pub(crate) fn end_of(finish: Finish) -> Result<(), Halt>
    ensures { result ≡ end_of finish }
{
    match finish {
        Finish::All => Ok(()),
        Finish::NotRead(stop) => Err(halt_at(stop)),
        Finish::NotOpened(why) => Err(Halt::from(why)),
        Finish::NoMemory => Err(Halt::NoMemory),
        Finish::DiskFault => Err(Halt::DiskFault),
        Finish::WriteFault => Err(Halt::WriteFault),
    }
}

/// Why the program stops whose input was not read to its end.
pub(crate) fn halt_at(stop: Stop) -> Halt
    ensures { result ≡ halt_at stop }
{
    match stop {
        Stop::BadLine(number) => Halt::BadLine(number),
        Stop::ReadFault => Halt::ReadFault,
        Stop::NoMemory => Halt::NoMemory,
        Stop::Limit => Halt::Limit(u128::from(LINES_MOST)),
    }
}
