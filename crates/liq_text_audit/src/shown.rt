//! The text of an audit: a line for each row, and how many of them hold.

ghost use Rattle.std.specs.Prelude.{◌≡◌, ◌++◌, ◌∷◌, [], ◌+◌, ◌<◌, ◌^◌, length, map, count_by, decimal, IfOk, OnOk};
ghost use Rattle.std.specs.List.{join_with_byte};
ghost use Rattle.liq_text_audit.specs.Shown.{shown as shown_rows, line_of, last_line, is_within};

use itoa::{Buffer, Integer};
use liq_audit::Row;
use liq_types::NoMemory;
use std::alloc::{AllocError, Global};

/// A line for each row, and how many of how many are within theirs.
pub(crate) fn write_rows(alloc: Global, rows: &[Row]) -> Result<Vec<u8>, NoMemory>
    ensures { IfOk result (λ text. text.items ≡ shown_rows rows.now) }
{
    let mut text = Vec::new(alloc);
    for row in rows {
        put_row(&mut text, row)?;
    }
    put_last(&mut text, count_within(rows), rows.len())?;
    Ok(text)
}

/// How many of the rows are within theirs.
fn count_within(rows: &[Row]) -> usize
    ensures { result ≡ count_by is_within rows.now }
{
    let mut count = 0;
    for row in rows {
        if is_row_within(row) {
            count += 1;
        }
    }
    count
}

/// Whether neither balance nor gain is above the enclosure, nor below it by more than the
/// allowance.
fn is_row_within(row: &Row) -> bool
    ensures { result ≡ is_within row.now }
{
    let balance = u128::from(row.balance);
    let gain = u128::from(row.gain);
    balance <= row.balance_hi
        && row.balance_lo <= balance + u128::from(row.balance_allow)
        && gain <= row.gain_hi
        && row.gain_lo <= gain + u128::from(row.gain_allow)
}

/// Appends a row's line.
fn put_row(text: &mut Vec<u8>, row: &Row) -> Result<(), AllocError>
    ensures { OnOk result (text.new.items ≡ text.old.items ++ line_of row.now) }
{
    put_numbers(text, &row.numbers())?;
    text.extend_from_slice(b"\n")
}

/// Appends numbers with one space between two.
fn put_numbers(text: &mut Vec<u8>, numbers: &[u128]) -> Result<(), AllocError>
    ensures { OnOk result (text.new.items ≡ text.old.items ++ join_with_byte 32
        (map decimal numbers.now)) }
{
    let [first, rest @ ..] = numbers else {
        return Ok(());
    };
    put_number(text, *first)?;
    for number in rest {
        text.extend_from_slice(b" ")?;
        put_number(text, *number)?;
    }
    Ok(())
}

fn put_number<I: Integer>(text: &mut Vec<u8>, number: I) -> Result<(), AllocError>
    ensures { OnOk result (text.new.items ≡ text.old.items ++ I.text number) }
{
    text.extend_from_slice(Buffer::new().format(number).as_bytes())
}

/// Appends the last line.
fn put_last(text: &mut Vec<u8>, within: usize, all: usize) -> Result<(), AllocError>
    ensures { OnOk result (text.new.items ≡ text.old.items ++ last_line within all) }
{
    text.extend_from_slice(b"within ")?;
    put_number(text, within)?;
    text.extend_from_slice(b" of ")?;
    put_number(text, all)?;
    text.extend_from_slice(b"\n")
}
