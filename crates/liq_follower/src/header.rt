//! A whole header, tested: of which version it is, and whether a follower may go on behind it.
ghost use Rattle.std.specs.Prelude.{◌≡◌, ◌≤◌, ◌&&◌, [], length, get_or, nat_lt, take};
ghost use Rattle.std.specs.Str.{bytes_eq};
ghost use Rattle.liq_types.specs.Image.{IsLimit};
ghost use Rattle.liq_disk_header.specs.Layout.{fields_size, generation_on, header_digest, header_size, layout_on, layout_with, name_on};
ghost use Rattle.liq_follower.specs.Fed.{begun_limit};
ghost use Rattle.liq_follower.specs.Judging.{IsJudged};

use liq_disk_header::{
    Head, fields_size, generation_of, header_digest, is_named, is_of_version_1, limit_on, placed,
};
use liq_types::amounts::{LIM, LIM_OF_VERSION_1};

// What a whole header is found to be.
#[derive(Clone, Copy)]
pub enum Judged {
    // It is that of a journal of the first generation.
    Right,
    // It is of this generation, which comes after the first.
    Turned { generation: u64 },
    // A field of it is wrong, or its digest.
    Damaged,
}

// The limit of the opening of a journal that begins with these bytes.
pub fn begun_limit(bytes: &[u8]) -> u64
    ensures begun { result ≡ begun_limit bytes.now }
    ensures limit { IsLimit result }
{
    if !bytes.is_empty() && bytes[0] == 1 && is_of_version_1(bytes) {
        LIM_OF_VERSION_1
    } else {
        LIM
    }
}

// How many bytes a header has that begins with these.
pub fn header_size(bytes: &[u8]) -> usize
    ensures { result ≡ header_size (layout_on bytes.now) }
{
    liq_disk_header::header_size(limit_on(bytes)) as usize
}

// Whether the digest behind the fields is that of the fields and no checkpoint.
fn has_digest(head: &Head) -> bool
    ensures { result ≡ bytes_eq head.now.stored
        (header_digest (take (fields_size (layout_with head.now.limit)) head.now.fields) []) }
{
    head.stored == header_digest(&head.fields[..fields_size(head.limit)], &[])
}

// Whether a header has the name of a version, and says a generation after the first.
fn is_later(bytes: &[u8]) -> bool
    requires { 17 ≤ length bytes.now }
    ensures { result ≡ (bytes_eq (name_on bytes.now) (layout_on bytes.now).name && nat_lt 1
        (generation_on bytes.now)) }
{
    is_named(bytes) && generation_of(bytes) > 1
}

// What a header is, all of whose bytes these are, where its gate is open.
pub fn judge(bytes: &[u8]) -> Judged
    requires { length bytes.now ≡ header_size (layout_on bytes.now) }
    ensures { get_or bytes.now 0 0 ≡ 1 → IsJudged bytes.now result }
{
    if is_later(bytes) {
        let generation = generation_of(bytes);
        return Judged::Turned { generation };
    }
    let head = match placed(bytes, true) {
        Ok(head) => head,
        Err(_) => return Judged::Damaged,
    };
    if has_digest(&head) {
        Judged::Right
    } else {
        Judged::Damaged
    }
}
