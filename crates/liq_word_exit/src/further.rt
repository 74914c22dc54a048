//! A source that goes on past the most bytes that are taken of it.

ghost use Rattle.std.specs.Prelude.{ℕ, List};
ghost use Rattle.liq_text_lines.specs.Reading.{Reads};
ghost use Rattle.liq_word_exit.specs.Causes.{ReadCause};
ghost use Rattle.liq_word_exit.specs.Further.{IsFurther};

use crate::halts::Halt;
use liq_outside::{Failed, Source};

/// Looks whether a source has a byte more behind so many, which is too much.
pub fn look_further<S: Source>(input: &mut S, most: u128) -> Result<(), Halt>
    ensures further { (read : List ℕ) × Reads (S.at input.old).left read (S.at input.new).left
        × IsFurther most result read (S.at input.new).left }
    ensures source { ReadCause result (S.at input.old).faults (S.at input.new).faults }
{
    let mut byte = [0];
    match input.read(&mut byte) {
        Ok(0) => Ok(()),
        Ok(_) => Err(Halt::Limit(most)),
        Err(Failed) => Err(Halt::ReadFault),
    }
}
