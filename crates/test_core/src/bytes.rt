//! Images that are written down as text, and their checkpoints.

use std::alloc::{AllocError, Global};

/// An image, with a number a field in the order of a checkpoint. A line of a table is a row.
#[derive(Clone, Copy)]
pub struct Told {
    /// Clock, generation and the collateral inside; the pools; the sums of all troves; the
    /// Stability Pool.
    pub words: [&'static str; 4],
    /// Wallets, troves, surplus, finished sums, deposits and clients.
    pub tables: [&'static str; 6],
}

/// The limit under which an image stands, by the version of the journal that has it.
#[derive(Clone, Copy, PartialEq, Eq)]
pub enum Version {
    One,
    Two,
}

/// The bytes of each field of the words.
const WORDS: [&[u64]; 4] = [
    &[8, 8, 8, 8, 8, 8],
    &[8, 8, 8, 8, 8, 8, 8, 8],
    &[16, 16, 8, 8, 8],
    &[16, 8, 8, 16, 8, 8],
];

/// The bytes of each field of a row, by its table.
const ROWS: [&[u64]; 6] = [
    &[4, 8, 8],
    &[4, 8, 8, 8, 16, 16],
    &[4, 8],
    &[8, 8, 16],
    &[4, 8, 16, 16, 8, 8],
    &[4, 8, 1, 8, 8, 8, 8, 8, 8],
];

/// Where the checkpoint has the last byte of the generation.
const GENERATION: usize = 47;

/// The table of clients.
const CLIENTS: usize = 5;

/// The checkpoint of what is told, and of one more client, which may be none.
pub fn checkpoint(
    alloc: Global,
    version: Version,
    told: &Told,
    client: &str,
) -> Result<Vec<u8>, AllocError> {
    let mut out = match version {
        Version::One => Vec::from_slice(alloc, b"LIQSTAT1")?,
        Version::Two => Vec::from_slice(alloc, b"LIQSTAT2")?,
    };
    put_image(&mut out, told, client)?;
    Ok(out)
}

fn put_image(out: &mut Vec<u8>, told: &Told, client: &str) -> Result<(), AllocError> {
    for at in 0..WORDS.len() {
        put_line(out, WORDS[at], told.words[at])?;
    }
    for table in 0..ROWS.len() {
        let last = if table == CLIENTS { client } else { "" };
        put_table(out, ROWS[table], told.tables[table], last)?;
    }
    Ok(())
}

fn put_table(out: &mut Vec<u8>, widths: &[u64], rows: &str, last: &str) -> Result<(), AllocError> {
    let count = rows.lines().count().saturating_add(last.lines().count());
    put(out, 8, count as u64)?;
    put_rows(out, widths, rows)?;
    put_rows(out, widths, last)
}

fn put_rows(out: &mut Vec<u8>, widths: &[u64], rows: &str) -> Result<(), AllocError> {
    for row in rows.lines() {
        put_line(out, widths, row)?;
    }
    Ok(())
}

fn put_line(out: &mut Vec<u8>, widths: &[u64], line: &str) -> Result<(), AllocError> {
    for (width, word) in widths.iter().zip(line.split(' ')) {
        put(out, *width, word.parse::<u64>().unwrap_or(u64::MAX))?;
    }
    Ok(())
}

fn put(out: &mut Vec<u8>, width: u64, number: u64) -> Result<(), AllocError> {
    let digits = u128::from(number).to_be_bytes();
    let start = 16usize.saturating_sub(width as usize);
    out.extend_from_slice(digits.get(start..).unwrap_or(&[]))
}

/// Makes it a checkpoint of the second generation.
pub fn set_second(bytes: &mut [u8]) {
    if let Some(byte) = bytes.get_mut(GENERATION) {
        *byte = 2;
    }
}
