//! Words and numbers, appended to a text that grows. Without memory a part of them may stand there.

ghost use Rattle.std.specs.Prelude.{◌≡◌, ◌++◌, ◌∷◌, decimal, map, OnOk};
ghost use Rattle.liq_text.specs.Writing.{spaced, words_line};

use itoa::Buffer;
use std::alloc::AllocError;

/// Appends a line: a word, and numbers behind it with one space before each.
pub fn append_line(text: &mut Vec<u8>, word: &[u8], numbers: &[u128]) -> Result<(), AllocError>
    ensures { OnOk result (text.new.items ≡ text.old.items ++ words_line (word.now
        ∷ map decimal numbers.now)) }
{
    text.extend_from_slice(word)?;
    append_numbers(text, numbers)?;
    text.extend_from_slice(b"\n")
}

/// Appends numbers with one space before each.
pub fn append_numbers(text: &mut Vec<u8>, numbers: &[u128]) -> Result<(), AllocError>
    ensures { OnOk result (text.new.items ≡ text.old.items ++ spaced (map decimal numbers.now)) }
{
    for number in numbers {
        append_number(text, *number)?;
    }
    Ok(())
}

/// Appends a number with a space before it.
pub fn append_number(text: &mut Vec<u8>, number: u128) -> Result<(), AllocError>
    ensures { OnOk result (text.new.items ≡ text.old.items ++ (32 ∷ decimal number)) }
{
    text.extend_from_slice(b" ")?;
    text.extend_from_slice(Buffer::new().format(number).as_bytes())
}
