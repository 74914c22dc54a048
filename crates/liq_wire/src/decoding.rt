//! A command read from its bytes.
ghost use Rattle.std.specs.Prelude.{◌≡◌, ◌≤◌, ◌+◌, ◌<◌, ◌^◌, ◌&&◌, ◌||◌, nat_lt, not, replicate, Ok, Err, List, ℕ, take, drop, length, IfOk, IfErr};
ghost use Rattle.std.specs.Str.{bytes_eq};
ghost use Rattle.std.specs.Result.{MatchResult};
ghost use Rattle.liq_types.specs.declared.requests.Command.{Command};
ghost use Rattle.liq_wire.specs.Fields.{HasHints, Spells96, call_in, command_of, fields_at, first_place, hint_of, isnt_zero, misfit, number_at, shape_of};
ghost use Rattle.liq_wire.specs.View.{seen};

use crate::bad_place::BadPlace;
use crate::fields::Fields;
use byteorder::{BigEndian, ByteOrder};
use liq_types::{Call, Command, HintWords};

/// The command that the bytes are. `BadPlace` tells the first field, in the order of the places,
/// that fits no command: an unknown kind, or a field that is not 0 where the kind has none. The
/// greatest hint word is read as no hint. Ranges are not tested here.
pub fn decode(bytes: &[u8; 96]) -> Result<Command, BadPlace>
    ensures exact { MatchResult result (λ c. command_of bytes.now ≡ Ok c) (λ e. command_of bytes.now
        ≡ Err e.place) }
    ensures found { IfOk result (λ c. Spells96 bytes.now c × HasHints c.call) }
    ensures only { (c : Command) → Spells96 bytes.now c → HasHints c.call → result ≡ Ok c }
    ensures refused { IfErr result (λ _. (c : Command) → Spells96 bytes.now c → ⊥) }
{
    let fields = read(bytes);
    match first_misfit(bytes, &fields) {
        Some(place) => Err(BadPlace { place }),
        None => Ok(Command {
            client: fields.client,
            number: fields.number,
            call: call_in(&fields),
        }),
    }
}

#[tactic(auto, unfolding(crate::specs::Fields::number_at))]
fn u32_at(bytes: &[u8], at: usize) -> u32
    requires { at + 4 ≤ length bytes.now }
    ensures { result ≡ number_at at 4 bytes.now }
{
    BigEndian::read_u32(&bytes[at..])
}

#[tactic(auto, unfolding(crate::specs::Fields::number_at))]
fn u64_at(bytes: &[u8], at: usize) -> u64
    requires { at + 8 ≤ length bytes.now }
    ensures { result ≡ number_at at 8 bytes.now }
{
    BigEndian::read_u64(&bytes[at..])
}

fn read(bytes: &[u8; 96]) -> Fields
    ensures fields { seen result (take 3 (drop 1 bytes.now)) (drop 72 bytes.now)
        ≡ fields_at bytes.now }
    ensures hints { (result.before < 2 ^ 32) × (result.after < 2 ^ 32) }
{
    Fields {
        kind: bytes[0],
        client: u32_at(bytes, 4),
        number: u64_at(bytes, 8),
        account: u32_at(bytes, 16),
        other: u32_at(bytes, 20),
        amounts: [
            u64_at(bytes, 24),
            u64_at(bytes, 32),
            u64_at(bytes, 40),
            u64_at(bytes, 48),
            u64_at(bytes, 56),
        ],
        before: u32_at(bytes, 64),
        after: u32_at(bytes, 68),
    }
}

// How many accounts, amounts and hints a kind has.
fn shape_of(kind: u8) -> (u8, u8, u8)
    ensures accounts { result.0 ≡ (shape_of kind).accounts }
    ensures amounts { result.1 ≡ (shape_of kind).amounts }
    ensures hints { result.2 ≡ (shape_of kind).hints }
{
    match kind {
        1 | 2 => (0, 1, 0),
        3 | 4 | 9 | 10 | 13 => (1, 1, 0),
        5 => (2, 1, 0),
        6 => (1, 3, 2),
        7 => (1, 5, 2),
        8 | 15 => (1, 0, 0),
        11 => (1, 0, 2),
        12 => (2, 0, 0),
        14 => (1, 2, 2),
        _ => (0, 0, 0),
    }
}

#[tactic(auto, unfolding(crate::specs::Fields::misfit))]
fn first_misfit(bytes: &[u8; 96], fields: &Fields) -> Option<u8>
    ensures { result ≡ misfit (seen fields.now (take 3 (drop 1 bytes.now)) (drop 72 bytes.now)) }
{
    let (accounts, amounts, hints) = shape_of(fields.kind);
    let tests = [
        (is_unknown(fields.kind), 0),
        (fills_gap(bytes), 1),
        (is_misused(accounts, 1, fields.account as u64), 16),
        (is_misused(accounts, 2, fields.other as u64), 20),
        (is_misused(amounts, 1, fields.amounts[0]), 24),
        (is_misused(amounts, 2, fields.amounts[1]), 32),
        (is_misused(amounts, 3, fields.amounts[2]), 40),
        (is_misused(amounts, 4, fields.amounts[3]), 48),
        (is_misused(amounts, 5, fields.amounts[4]), 56),
        (is_misused(hints, 1, fields.before as u64), 64),
        (is_misused(hints, 2, fields.after as u64), 68),
        (fills_rest(bytes), 72),
    ];
    first_place(&tests)
}

fn fills_gap(bytes: &[u8; 96]) -> bool
    ensures { result ≡ not (bytes_eq (take 3 (drop 1 bytes.now)) (replicate 3 0)) }
{
    bytes[1..4] != [0; 3]
}

fn fills_rest(bytes: &[u8; 96]) -> bool
    ensures { result ≡ not (bytes_eq (drop 72 bytes.now) (replicate 24 0)) }
{
    let (_, rest) = bytes.split_at(72);
    rest != [0; 24].as_slice()
}

fn is_unknown(kind: u8) -> bool
    ensures { result ≡ (nat_lt kind 1 || nat_lt 16 kind) }
{
    kind < 1 || 16 < kind
}

// The field of this number, from 1, is not 0 where the kind has only so many.
fn is_misused(count: u8, number: u8, field: u64) -> bool
    ensures { result ≡ (nat_lt count number && isnt_zero field) }
{
    count < number && field != 0
}

fn first_place(tests: &[(bool, u8)]) -> Option<u8>
    ensures { result ≡ first_place tests.now }
{
    for (misfits, place) in tests {
        if *misfits {
            return Some(*place);
        }
    }
    None
}

fn hint_of(word: u32) -> Option<u32>
    ensures { result ≡ hint_of word }
{
    if word == u32::MAX { None } else { Some(word) }
}

fn call_in(f: &Fields) -> Call
    ensures { (gap rest : List ℕ) → result ≡ call_in (seen f.now gap rest) }
{
    let hints = HintWords {
        prev: hint_of(f.before),
        next: hint_of(f.after),
    };
    let [first, second, third, fourth, fifth] = f.amounts;
    match f.kind {
        1 => Call::Price(first),
        2 => Call::Advance(first),
        3 => Call::Fund(f.account, first),
        4 => Call::Take(f.account, first),
        5 => Call::Send(f.account, f.other, first),
        6 => Call::Open(f.account, first, second, third, hints),
        7 => Call::Adjust(f.account, first, second, third, fourth, fifth, hints),
        8 => Call::Close(f.account),
        9 => Call::Provide(f.account, first),
        10 => Call::Withdraw(f.account, first),
        11 => Call::GainToTrove(f.account, hints),
        12 => Call::Liquidate(f.account, f.other),
        13 => Call::LiquidateLowest(f.account, first),
        14 => Call::Redeem(f.account, first, second, hints),
        15 => Call::Claim(f.account),
        _ => Call::Rotate,
    }
}
