//! What the words of a command line ask for, read by clap.

ghost use Rattle.std.specs.Prelude.{◌≡◌, ◌↔◌, ◌⊎◌, Err, Ok, Some, IfOk, map};
ghost use Rattle.std.specs.String.{string_bytes};
ghost use Rattle.clap.specs.Words.{subcommand_rows_of};
ghost use Rattle.liq_word_line.specs.declared.words.Word.{Word};
ghost use Rattle.liq_word_line.specs.Words.{Ask, IsInRange};
ghost use Rattle.liq_word_arguments.specs.Reading.{HasRead};

use crate::line::line;
use clap::error::ErrorKind;
use clap::{ArgMatches, Error};
use liq_word_line::{Word, alone, are_understood, gen_of};
use std::alloc::{AllocError, Global};

/// Why words ask for nothing.
#[derive(Clone, Copy)]
pub enum WordsFault {
    /// They are not understood.
    Usage,
    /// There was no memory to read them.
    NoMemory,
}

/// What the words ask for: of a number no sign and no leading zero is understood, and a count is
/// from 1 to 1,000,000.
pub fn read_words(alloc: Global, words: &[String]) -> Result<Word, WordsFault>
    ensures word { IfOk result (Ask (map string_bytes words.now)) }
    ensures only { (word : Word) → Ask (map string_bytes words.now) word → (result ≡ Ok word)
        ⊎ (result ≡ Err WordsFault.NoMemory) }
    // So memory is asked for only where the words are understood.
    ensures usage { (result ≡ Err WordsFault.Usage) ↔ ((word : Word)
        → Ask (map string_bytes words.now) word → ⊥) }
{
    // clap would take more: calls for help, `--`, and other spellings of numbers.
    if !are_understood(words) {
        return Err(WordsFault::Usage);
    }
    let matches = line(alloc)?.try_get_matches_from(words)?;
    word_of(&matches).ok_or(WordsFault::Usage)
}

/// What clap has read.
fn word_of(matches: &ArgMatches) -> Option<Word>
    ensures { (word : Word) → IsInRange word → HasRead (subcommand_rows_of matches.now) word
        → result ≡ Some word }
{
    match matches.subcommand()? {
        ("gen", values) => gen_of(values.get_str("seed")?, values.get_str("count")?),
        (name, _) => alone(name),
    }
}

impl From<AllocError> for WordsFault {
    ghost use Rattle.liq_word_arguments.specs.declared.reading.WordsFault.{WordsFault};

    ghost from_gives = { λ _ fault. fault ≡ WordsFault.NoMemory };

    fn from(_: AllocError) -> WordsFault {
        WordsFault::NoMemory
    }
}

impl From<Error> for WordsFault {
    ghost use Rattle.std.specs.Prelude.{◌≡◌};
    ghost use Rattle.clap.specs.Words.{kind_of};
    ghost use Rattle.clap.specs.declared.error.kind.ErrorKind.{ErrorKind};
    ghost use Rattle.liq_word_arguments.specs.declared.reading.WordsFault.{WordsFault};

    ghost from_gives = { λ error fault. kind_of error ≡ ErrorKind.OutOfMemory
        → fault ≡ WordsFault.NoMemory };

    fn from(error: Error) -> WordsFault {
        match error.kind() {
            ErrorKind::OutOfMemory => WordsFault::NoMemory,
            _ => WordsFault::Usage,
        }
    }
}
