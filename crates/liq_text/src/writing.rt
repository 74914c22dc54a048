//! Words, written into a vector that has room for them.

ghost use Rattle.std.specs.Prelude.{◌≡◌, ◌≤◌, ◌+◌, ◌*◌, ◌++◌, ◌∷◌, drop, length, map, decimal};
ghost use Rattle.std.specs.List.{join_with_byte};
ghost use Rattle.std.specs.Vec.{vec_len, vec_capacity};
ghost use Rattle.liq_text.specs.Writing.{spaced};

use itoa::{Buffer, Integer, write_digits};

pub(crate) fn put(out: &mut Vec<u8>, bytes: &[u8])
    requires { vec_len out.old + length bytes.now ≤ vec_capacity out.old }
    ensures items { out.new.items ≡ out.old.items ++ bytes.now }
    ensures len { vec_len out.new ≡ vec_len out.old + length bytes.now }
    ensures capacity { vec_capacity out.old ≤ vec_capacity out.new }
{
    // There is room, so this never fails.
    let _ = out.extend_from_slice(bytes);
}

pub(crate) fn put_first<I: Integer>(out: &mut Vec<u8>, number: I)
    requires { vec_len out.old + I.MAX_STR_LEN ≤ vec_capacity out.old }
    ensures items { out.new.items ≡ out.old.items ++ I.text number }
    ensures len { vec_len out.new ≤ vec_len out.old + I.MAX_STR_LEN }
    ensures capacity { vec_capacity out.old ≤ vec_capacity out.new }
{
    put(out, Buffer::new().format(number).as_bytes());
}

// The number with a space in front of it.
pub(crate) fn put_number<I: Integer>(out: &mut Vec<u8>, number: I)
    requires { vec_len out.old + (I.MAX_STR_LEN + 1) ≤ vec_capacity out.old }
    ensures items { out.new.items ≡ out.old.items ++ (32 ∷ I.text number) }
    ensures len { vec_len out.new ≤ vec_len out.old + (I.MAX_STR_LEN + 1) }
    ensures capacity { vec_capacity out.old ≤ vec_capacity out.new }
{
    put(out, b" ");
    put_first(out, number);
}

pub(crate) fn put_numbers<I: Integer>(out: &mut Vec<u8>, numbers: &[I])
    requires { vec_len out.old + length numbers.now * (I.MAX_STR_LEN + 1) ≤ vec_capacity out.old }
    ensures items { out.new.items ≡ out.old.items ++ spaced (map I.text numbers.now) }
    ensures len { vec_len out.new ≤ vec_len out.old + length numbers.now * (I.MAX_STR_LEN + 1) }
    ensures capacity { vec_capacity out.old ≤ vec_capacity out.new }
{
    for number in numbers {
        put_number(out, *number);
    }
}

// The numbers with one space between two. They are written into one place, from the last to the
// first, and copied once.
pub(crate) fn put_list(out: &mut Vec<u8>, numbers: &[u64])
    requires few { length numbers.now ≤ 10 }
    requires room { vec_len out.old + length numbers.now * 21 ≤ vec_capacity out.old }
    ensures items { out.new.items ≡ out.old.items ++ join_with_byte 32 (map decimal numbers.now) }
    ensures len { vec_len out.new ≤ vec_len out.old + length numbers.now * 21 }
    ensures capacity { vec_capacity out.old ≤ vec_capacity out.new }
{
    let mut text = [0; LIST_BYTES];
    let start = write_list(numbers, &mut text);
    put(out, &text[start..]);
}

// The most bytes of a list: ten numbers of 20 digits, and a space beside each.
const LIST_BYTES: usize = 210;

// Writes the numbers, with one space between two, so that they end where the text ends. Tells where
// they start.
fn write_list(numbers: &[u64], text: &mut [u8]) -> usize
    requires few { length numbers.now ≤ 10 }
    requires room { length text.old ≡ LIST_BYTES }
    ensures text { drop result text.new ≡ join_with_byte 32 (map decimal numbers.now) }
    ensures within { result ≤ LIST_BYTES }
    ensures short { LIST_BYTES ≤ result + length numbers.now * 21 }
{
    if let [first, rest @ ..] = numbers {
        let start = write_behind(rest, text);
        write_digits(*first, text, start)
    } else {
        LIST_BYTES
    }
}

// The same with a space in front of each number.
fn write_behind(numbers: &[u64], text: &mut [u8]) -> usize
    requires few { length numbers.now ≤ 10 }
    requires room { length text.old ≡ LIST_BYTES }
    ensures text { drop result text.new ≡ spaced (map decimal numbers.now) }
    ensures within { result ≤ LIST_BYTES }
    ensures short { LIST_BYTES ≤ result + length numbers.now * 21 }
{
    let mut start = LIST_BYTES;
    let mut left = numbers.len();
    while left > 0 {
        left -= 1;
        start = write_digits(numbers[left], text, start) - 1;
        text[start] = b' ';
    }
    start
}
