//! A command's 96 bytes by example.

use crate::tests::checks::{NOWHERE, same, shows};
use crate::tests::journals::fund;
use liq_types::{Call, Command, HintWords};
use liq_wire::{decode, encode};

// Whether the bytes are read as the command.
fn reads(bytes: &[u8; 96], command: &Command) -> bool {
    match decode(bytes) {
        Ok(read) => read == *command,
        Err(_) => false,
    }
}

#[test]
fn a_fund_in_96_bytes(rt: HostRuntime) {
    let mut expected = [0; 96];
    expected[0] = 3;
    expected[7] = 1;
    expected[15] = 1;
    expected[19] = 1;
    expected[27..32].copy_from_slice(&[0x02, 0x54, 0x0b, 0xe4, 0x00]);
    shows(&rt, "a fund is written", encode(&fund(1)) == expected);
    shows(&rt, "a fund is read", reads(&expected, &fund(1)));
}

// Where a byte of a fund is another, and the place that fits no command then.
const PLACES: [(usize, u8); 9] = [
    (1, 1),
    (3, 1),
    (20, 20),
    (32, 32),
    (56, 56),
    (64, 64),
    (71, 68),
    (72, 72),
    (95, 72),
];

// The place that fits no command where the byte at a place is 1.
fn bad_place(at: usize) -> u64 {
    let mut bytes = encode(&fund(1));
    if let Some(byte) = bytes.get_mut(at) {
        *byte = 1;
    }
    match decode(&bytes) {
        Ok(_) => NOWHERE,
        Err(bad) => u64::from(bad.place),
    }
}

#[test]
fn a_place_that_fits_no_command(rt: HostRuntime) {
    for (at, place) in PLACES {
        same(&rt, bad_place(at), u64::from(place), "a bad place");
    }
}

// A gain that is moved, with these hints.
fn moved(prev: Option<u32>) -> Command {
    let next = Some(7);
    Command {
        client: 1,
        number: 1,
        call: Call::GainToTrove(1, HintWords { prev, next }),
    }
}

#[test]
fn the_greatest_hint_word_is_none(rt: HostRuntime) {
    let bytes = encode(&moved(Some(u32::MAX)));
    shows(&rt, "no hint is written", bytes == encode(&moved(None)));
    shows(&rt, "no hint is read", reads(&bytes, &moved(None)));
}
