//! The fields of a header, read and tested in their order: the first whose place is wrong is told.
ghost use Rattle.std.specs.Prelude.{◌≡◌, ◌≤◌, ◌+◌, ◌==◌, ◌||◌, nat_lt, not, Some, None, true, IfOk, length, get_or};
ghost use Rattle.std.specs.Result.{MatchResult};
ghost use Rattle.std.specs.Str.{bytes_eq};
ghost use Rattle.liq_types.specs.Image.{IsLimit};
ghost use Rattle.liq_wire.specs.Fields.{first_place, number_at};
ghost use Rattle.liq_disk_header.specs.Header.{HasFields, is_generation, is_size, place_tests};
ghost use Rattle.liq_disk_header.specs.Layout.{fields_size, generation_on, header_size, layout_on, layout_with, least_header, name_on, version_1};

use crate::digests::number;
use crate::head::Head;
use byteorder::{BigEndian, ByteOrder};
use liq_types::amounts::{LIM, LIM_OF_VERSION_1};

/// The places of a header of version 2, which the checkpoint follows. No header has more.
pub const HEADER: u64 = 65;

// The name of version 2, LIQJRNL2.
const NAME_2: [u8; 8] = [76, 73, 81, 74, 82, 78, 76, 50];

// The name of version 1, LIQJRNL1.
const NAME_1: [u8; 8] = [76, 73, 81, 74, 82, 78, 76, 49];

/// The places of a header of the version with this limit, which the checkpoint follows: 65 for
/// 10^19, and 57 for 10^18.
pub fn header_size(limit: u64) -> u64
    ensures known { result ≡ header_size (layout_with limit) }
    ensures most { result ≤ 65 }
{
    if limit == LIM { HEADER } else { 57 }
}

/// How many bytes its fields have, between the gate and the digest.
pub fn fields_size(limit: u64) -> usize
    ensures { result ≡ fields_size (layout_with limit) }
{
    if limit == LIM { 32 } else { 24 }
}

// Whether all bytes of this name stand behind the gate.
fn has_name(bytes: &[u8], name: &[u8; 8]) -> bool
    requires { length name.now ≡ 8 }
    ensures { result ≡ bytes_eq (name_on bytes.now) name.now }
{
    bytes.len() >= 9 && &bytes[1..9] == name.as_slice()
}

/// The limit of the version of a header that begins with these bytes: that of version 1 where the
/// name of version 2 isn't there.
pub fn limit_on(bytes: &[u8]) -> u64
    ensures layout { layout_with result ≡ layout_on bytes.now }
    ensures limit { result ≡ (layout_on bytes.now).limit }
    ensures is_limit { IsLimit result }
{
    if has_name(bytes, &NAME_2) {
        LIM
    } else {
        LIM_OF_VERSION_1
    }
}

/// Whether the whole name of version 1 stands behind the gate.
pub fn is_of_version_1(bytes: &[u8]) -> bool
    ensures { result ≡ bytes_eq (name_on bytes.now) version_1.name }
{
    has_name(bytes, &NAME_1)
}

/// Whether the whole name of a version does.
pub fn is_named(bytes: &[u8]) -> bool
    ensures { result ≡ bytes_eq (name_on bytes.now) (layout_on bytes.now).name }
{
    if has_name(bytes, &NAME_2) {
        return true;
    }
    has_name(bytes, &NAME_1)
}

/// The generation that a header says.
pub fn generation_of(bytes: &[u8]) -> u64
    requires { 17 ≤ length bytes.now }
    ensures { result ≡ generation_on bytes.now }
{
    u64_at(bytes, 9)
}

// The first field of a header that is wrong.
fn misplaced(bytes: &[u8], odd: bool, limit: u64) -> Option<u64>
    requires { least_header ≤ length bytes.now }
    ensures { result ≡ first_place (place_tests (layout_with limit) odd bytes.now) }
{
    let name = if limit == LIM { NAME_2 } else { NAME_1 };
    let generation = u64_at(bytes, 9);
    if &bytes[1..9] != name.as_slice() {
        return Some(1);
    }
    if !may_have(odd, generation) {
        return Some(9);
    }
    if !may_be_long(generation, u64_at(bytes, 17)) {
        return Some(17);
    }
    if limit == LIM && &bytes[25..33] != number(LIM).as_slice() {
        return Some(25);
    }
    None
}

/// The fields of a header, all of whose bytes are there, or the first place whose field is wrong.
/// `odd` says whether it has to be of an odd generation. The digest isn't tested.
pub fn placed(bytes: &[u8], odd: bool) -> Result<Head, u64>
    requires { header_size (layout_on bytes.now) ≤ length bytes.now }
    ensures placed { MatchResult result
        (λ head. (first_place (place_tests (layout_on bytes.now) odd bytes.now) ≡ None)
        × HasFields (layout_on bytes.now) head bytes.now) (λ place. first_place
        (place_tests (layout_on bytes.now) odd bytes.now) ≡ Some place) }
    ensures limit { IfOk result (λ head. IsLimit head.limit) }
    ensures size { IfOk result (λ head. head.size ≤ 68719476736) }
    ensures generation { IfOk result (λ head. is_generation odd head.generation ≡ true) }
{
    let limit = limit_on(bytes);
    match misplaced(bytes, odd, limit) {
        Some(place) => Err(place),
        None => Ok(fields_in(bytes, limit)),
    }
}

// The fields of a header of the version with this limit.
fn fields_in(bytes: &[u8], limit: u64) -> Head
    requires limit { IsLimit limit }
    requires whole { header_size (layout_with limit) ≤ length bytes.now }
    ensures { HasFields (layout_with limit) result bytes.now }
{
    let mut fields = [0; 32];
    fields.copy_from_slice(&bytes[1..33]);
    let digest = 1 + fields_size(limit);
    let mut stored = [0; 32];
    stored.copy_from_slice(&bytes[digest..digest + 32]);
    Head {
        generation: u64_at(bytes, 9),
        limit,
        size: u64_at(bytes, 17),
        fields,
        stored,
    }
}

#[tactic(auto, unfolding(liq_wire::specs::Fields::number_at))]
fn u64_at(bytes: &[u8], at: usize) -> u64
    requires { at + 8 ≤ length bytes.now }
    ensures { result ≡ number_at at 8 bytes.now }
{
    BigEndian::read_u64(&bytes[at..])
}

// Whether this is a generation of the disk that has the odd ones, or of the one that has the even
// ones.
fn may_have(odd: bool, generation: u64) -> bool
    ensures { result ≡ is_generation odd generation }
{
    generation >= 1 && (generation % 2 == 1) == odd
}

fn may_be_long(generation: u64, size: u64) -> bool
    ensures { result ≡ is_size generation size }
{
    if generation == 1 {
        size == 0
    } else {
        size > 0 && size <= 1 << 36
    }
}

/// Whether no journal is open on a disk from whose front so many bytes were read, which are these:
/// fewer than the least header has, or a gate that isn't open.
pub fn is_absent(bytes: &[u8; 65], count: usize) -> bool
    ensures { result ≡ (nat_lt count least_header || not (get_or bytes.now 0 0 == 1)) }
{
    count < 57 || bytes[0] != 1
}
