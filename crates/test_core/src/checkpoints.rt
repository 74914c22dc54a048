//! One checkpoint with rows in each table is written and read, cut at each byte, has each byte
//! turned, and its fields and counts overwritten. The places that are told come from outside:
//! scripts/checkpoint-places writes `tables.rt`.

ghost use Rattle.liq_types.specs.Image.{IsLimit};
ghost use Rattle.liq_types.specs.Soundness.{HasTables};

use crate::checks::{NOWHERE, same};
use crate::outcomes::{Outcome, of_image};
use crate::tables::{FIELDS, LENGTH, TURNED, WRITTEN};
use liq_checkpoint::{ImageBytes, decode};
use liq_types::Image;
use liq_types::amounts::{LIM, LIM_OF_VERSION_1};
use std::alloc::{AllocError, Global};
use std::process::Abort;
use std::test::Fail;

// The place that is told of the bytes.
fn place_in(alloc: Global, bytes: &[u8]) -> u64 {
    match decode(alloc, bytes) {
        Ok(_) => NOWHERE,
        Err(ImageBytes::Bad { place }) => place,
        Err(ImageBytes::NoMemory) => NOWHERE - 1,
    }
}

// The checkpoint of the tables, under this name.
fn checkpoint(alloc: Global, name: &[u8]) -> Result<Vec<u8>, AllocError> {
    let mut out = Vec::from_slice(alloc, name)?;
    for (width, number) in &FIELDS {
        let digits = number.to_be_bytes();
        out.extend_from_slice(
            digits
                .get(16usize.saturating_sub(*width as usize)..)
                .unwrap_or(&[]),
        )?;
    }
    Ok(out)
}

// The first place that a cut doesn't tell.
fn first_odd_cut(alloc: Global, bytes: &[u8]) -> u64 {
    for at in 0..bytes.len() {
        if place_in(alloc, &bytes[..at]) != at as u64 {
            return at as u64;
        }
    }
    NOWHERE
}

// The place that is told where a byte's bits are turned.
fn turned_at(at: u64) -> u64 {
    for (end, place) in TURNED {
        if at < end {
            return place;
        }
    }
    NOWHERE
}

// The first byte of which another place is told where its bits are turned.
fn first_odd_turn(alloc: Global, bytes: &mut [u8]) -> u64 {
    for at in 0..bytes.len() {
        bytes[at] ^= 255;
        let place = place_in(alloc, bytes);
        bytes[at] ^= 255;
        if place != turned_at(at as u64) {
            return at as u64;
        }
    }
    NOWHERE
}

// Writes a number of so many bytes.
fn write(bytes: &mut [u8], at: u64, width: u64, number: u64) {
    let digits = number.to_be_bytes();
    for i in 0..width {
        let digit = digits.get(i.wrapping_sub(width).wrapping_add(8) as usize);
        if let Some(byte) = bytes.get_mut(at.saturating_add(i) as usize) {
            *byte = *digit.unwrap_or(&0);
        }
    }
}

// The first place where another number lets another place be told.
fn first_odd_number(alloc: Global, bytes: &[u8]) -> Result<u64, AllocError> {
    for (at, width, number, place) in &WRITTEN {
        let mut written = Vec::from_slice(alloc, bytes)?;
        write(&mut written, *at, *width, *number);
        if place_in(alloc, &written) != *place {
            return Ok(*at);
        }
    }
    Ok(NOWHERE)
}

// What tells an image from others: its limit, a word, the last row's last number, and whether its
// checkpoint is another one.
fn seen_of(alloc: Global, bytes: &[u8]) -> [u64; 4] {
    match decode(alloc, bytes) {
        Ok(image) => seen_in(alloc, &image, bytes),
        Err(_) => [0; 4],
    }
}

fn seen_in(alloc: Global, image: &Image, bytes: &[u8]) -> [u64; 4]
    requires tables { HasTables image.now }
    requires limit { IsLimit image.now.limit }
{
    let last = match image.clients.rows().last() {
        Some(row) => row.values[5],
        None => 0,
    };
    let odd = u64::from(of_image(alloc, image, bytes) != Outcome::Same);
    [image.limit, image.generation, last, odd]
}

// A checkpoint under this name is one of an image under this limit.
fn is_written_and_read(
    rt: &impl Abort,
    alloc: Global,
    name: &[u8],
    limit: u64,
) -> Result<(), AllocError> {
    let mut bytes = checkpoint(alloc, name)?;
    check_bytes(rt, alloc, bytes.as_mut_slice(), limit);
    bytes.push(0)?;
    same(rt, place_in(alloc, &bytes), LENGTH, "a byte behind");
    Ok(())
}

// What is told of the bytes, whole and turned.
fn check_bytes(rt: &impl Abort, alloc: Global, bytes: &mut [u8], limit: u64) {
    same(rt, bytes.len() as u64, LENGTH, "its length");
    let seen = seen_of(alloc, bytes);
    same(rt, seen[0], limit, "the limit");
    same(rt, seen[1], 2, "the generation");
    same(rt, seen[2], 7, "the last client's last value");
    same(rt, seen[3], 0, "the bytes that are written");
    let cut = first_odd_cut(alloc, bytes);
    same(rt, cut, NOWHERE, "cut at each byte");
    let turned = first_odd_turn(alloc, bytes);
    same(rt, turned, NOWHERE, "each byte turned");
    let number = first_odd_number(alloc, bytes).unwrap_or(NOWHERE - 1);
    same(rt, number, NOWHERE, "other numbers");
}

#[test]
fn a_checkpoint_is_written_and_read(rt: HostRuntime) -> Result<(), Fail> {
    is_written_and_read(&rt, rt.alloc(), b"LIQSTAT1", LIM_OF_VERSION_1)?;
    is_written_and_read(&rt, rt.alloc(), b"LIQSTAT2", LIM)?;
    same(
        &rt,
        place_in(rt.alloc(), &[0; 3]),
        3,
        "three bytes that begin no name",
    );
    Ok(())
}
