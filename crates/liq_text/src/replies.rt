//! Replies, written.

ghost use Rattle.std.specs.Prelude.{map, decimal, ◌≡◌, ◌≤◌, ◌+◌, ◌++◌, OnOk, OnErr, IsOk, length};
ghost use Rattle.std.specs.List.{join_with_byte};
ghost use Rattle.std.specs.Vec.{vec_len, vec_capacity};
ghost use Rattle.liq_text.specs.Replies.{text, info_words, refusal_numbers, shown_values};
ghost use Rattle.liq_text.specs.Writing.{spaced};

use crate::writing::{put, put_list, put_numbers};
use liq_types::amounts::REPLY_BYTES;
use liq_types::{Done, Info, NoMemory, Refusal, Reply, numbers_of, value_count};

fn put_refusal(out: &mut Vec<u8>, refusal: &Refusal)
    requires { vec_len out.old + 240 ≤ vec_capacity out.old }
    ensures items { out.new.items ≡ out.old.items
        ++ spaced (map decimal (refusal_numbers refusal.now)) }
    ensures len { vec_len out.new ≤ vec_len out.old + 240 }
    ensures capacity { vec_capacity out.old ≤ vec_capacity out.new }
{
    let (numbers, count) = numbers_of(refusal);
    put_numbers(out, &numbers[..count]);
}

fn put_done(out: &mut Vec<u8>, done: &Done)
    requires { vec_len out.old + 126 ≤ vec_capacity out.old }
    ensures items { out.new.items ≡ out.old.items ++ spaced (map decimal (shown_values done.now)) }
    ensures len { vec_len out.new ≤ vec_len out.old + 126 }
    ensures capacity { vec_capacity out.old ≤ vec_capacity out.new }
{
    put_numbers(out, &done.values[..value_count(done.kind)]);
}

fn put_info(out: &mut Vec<u8>, info: &Info)
    requires { vec_len out.old + 210 ≤ vec_capacity out.old }
    ensures items { out.new.items ≡ out.old.items ++ join_with_byte 32 (info_words info.now) }
    ensures len { vec_len out.new ≤ vec_len out.old + 210 }
    ensures capacity { vec_capacity out.old ≤ vec_capacity out.new }
{
    match info {
        Info::Wallet { coll, lusd } => put_list(out, &[*coll, *lusd]),
        Info::Trove { coll, debt, stake } => put_list(out, &[*coll, *debt, *stake]),
        Info::NoTrove | Info::NoDeposit => put(out, b"none"),
        Info::Deposit { balance, gain } => put_list(out, &[*balance, *gain]),
        Info::Pools { pools } => put_list(out, pools),
        Info::System { words } => put_list(out, words),
        Info::Next { number } => put_list(out, &[*number]),
    }
}

fn put_reply(out: &mut Vec<u8>, reply: &Reply)
    requires { vec_len out.old + REPLY_BYTES ≤ vec_capacity out.old }
    ensures items { out.new.items ≡ out.old.items ++ text reply.now }
    ensures len { vec_len out.new ≤ vec_len out.old + REPLY_BYTES }
    ensures capacity { vec_capacity out.old ≤ vec_capacity out.new }
{
    match reply {
        Reply::Said(done) => {
            put(out, b"ok");
            put_done(out, done);
        }
        Reply::Told(info) => put_info(out, info),
        Reply::No(refusal) => {
            put(out, b"no");
            put_refusal(out, refusal);
        }
    }
}

/// Appends the text of a reply, without a line end. Refused, `out` is as it was. No text has more
/// than 255 bytes, and where there is room for as many, it is not refused.
pub fn write_reply(reply: &Reply, out: &mut Vec<u8>) -> Result<(), NoMemory>
    ensures ok { OnOk result (out.new.items ≡ out.old.items ++ text reply.now) }
    ensures short { OnOk result (length (text reply.now) ≤ REPLY_BYTES) }
    ensures err { OnErr result (out.new.items ≡ out.old.items) }
    ensures room { vec_len out.old + REPLY_BYTES ≤ vec_capacity out.old → IsOk result }
    ensures capacity { vec_capacity out.old ≤ vec_capacity out.new }
{
    if out.reserve(REPLY_BYTES).is_err() {
        return Err(NoMemory);
    }
    put_reply(out, reply);
    Ok(())
}
