//! Requests, written.

ghost use Rattle.std.specs.Prelude.{[], ◌≡◌, ◌≤◌, ◌+◌, ◌*◌, ◌++◌, ◌∷◌, length, map, OnOk, OnErr, IsOk};
ghost use Rattle.std.specs.List.{AllByRecursion, join_with_byte};
ghost use Rattle.std.specs.Vec.{vec_len, vec_capacity};
ghost use Rattle.liq_types.specs.declared.requests.Request.TheVariants.{Do};
ghost use Rattle.liq_text.specs.Spelling.{hint, call_words, query_words, request_words, HasSpelling, AppendsLine};
ghost use Rattle.liq_text.specs.Writing.{piece_of, line_of, written, words_in, hint_words, IsInRange};

use crate::writing::{put, put_first, put_number, put_numbers};
use liq_types::amounts::LINE_BYTES;
use liq_types::{Call, Command, HintWords, NoMemory, Query, Request};

/// Appends the line that spells the request, without a line end. Refused, `out` is as it was. No
/// line has more than 200 bytes, and where there is room for as many, it is not refused. A hint
/// that is account 4294967295 is written as that number, which is read as no hint.
pub fn write_request(request: &Request, out: &mut Vec<u8>) -> Result<(), NoMemory>
    ensures written { OnOk result (out.new.items ≡ out.old.items ++ line_of request.now) }
    ensures ok { HasSpelling request.now
        → OnOk result (AppendsLine out.old.items out.new.items request.now) }
    ensures err { OnErr result (out.new.items ≡ out.old.items) }
    ensures room { vec_len out.old + LINE_BYTES ≤ vec_capacity out.old → IsOk result }
    ensures capacity { vec_capacity out.old ≤ vec_capacity out.new }
{
    if out.reserve(LINE_BYTES).is_err() {
        return Err(NoMemory);
    }
    put_request(out, request);
    Ok(())
}

fn put_request(out: &mut Vec<u8>, request: &Request)
    requires { vec_len out.old + LINE_BYTES ≤ vec_capacity out.old }
    ensures items { out.new.items ≡ out.old.items ++ line_of request.now }
    ensures range { AllByRecursion IsInRange (request_words request.now) }
    ensures len { vec_len out.new ≤ vec_len out.old + LINE_BYTES }
    ensures capacity { vec_capacity out.old ≤ vec_capacity out.new }
{
    match request {
        Request::Do(command) => put_command(out, command),
        Request::Ask(query) => {
            put(out, b"?");
            put_named(out, &named_query(query));
        }
    }
}

fn put_command(out: &mut Vec<u8>, command: &Command)
    requires { vec_len out.old + 186 ≤ vec_capacity out.old }
    ensures items { out.new.items ≡ out.old.items ++ join_with_byte 32
        (map piece_of (request_words (Do command.now))) }
    ensures range { AllByRecursion IsInRange (request_words (Do command.now)) }
    ensures len { vec_len out.new ≤ vec_len out.old + 186 }
    ensures capacity { vec_capacity out.old ≤ vec_capacity out.new }
{
    put_first(out, command.client);
    put_number(out, command.number);
    put_named(out, &named_call(&command.call));
}

/// A verb, and the numbers and hints behind it.
fn named_call(call: &Call) -> Named
    ensures words { map piece_of (words_in result) ≡ map piece_of (call_words call.now) }
    ensures range { AllByRecursion IsInRange (call_words call.now) }
    ensures few { result.count ≤ 6 }
    ensures short { length result.name.now + result.count * 21 ≤ 132 }
{
    match *call {
        Call::Price(price) => words(b"price", [price, 0, 0, 0, 0, 0], 1),
        Call::Advance(minutes) => words(b"advance", [minutes, 0, 0, 0, 0, 0], 1),
        Call::Fund(account, coll) => words(b"fund", [account.into(), coll, 0, 0, 0, 0], 2),
        Call::Take(account, coll) => words(b"take", [account.into(), coll, 0, 0, 0, 0], 2),
        Call::Send(from, to, lusd) => words(b"send", [from.into(), to.into(), lusd, 0, 0, 0], 3),
        Call::Open(account, coll, borrow, bound, hint) => with_hint(
            b"open",
            [account.into(), coll, borrow, bound, 0, 0],
            4,
            hint,
        ),
        Call::Adjust(account, coll_in, coll_out, borrow, repay, bound, hint) => with_hint(
            b"adjust",
            [account.into(), coll_in, coll_out, borrow, repay, bound],
            6,
            hint,
        ),
        Call::Close(account) => words(b"close", [account.into(), 0, 0, 0, 0, 0], 1),
        Call::Provide(account, lusd) => words(b"provide", [account.into(), lusd, 0, 0, 0, 0], 2),
        Call::Withdraw(account, lusd) => words(b"withdraw", [account.into(), lusd, 0, 0, 0, 0], 2),
        Call::GainToTrove(account, hint) => with_hint(
            b"gain_to_trove",
            [account.into(), 0, 0, 0, 0, 0],
            1,
            hint,
        ),
        Call::Liquidate(liquidator, owner) => words(
            b"liquidate",
            [liquidator.into(), owner.into(), 0, 0, 0, 0],
            2,
        ),
        Call::LiquidateLowest(liquidator, count) => words(
            b"liquidate_lowest",
            [liquidator.into(), count, 0, 0, 0, 0],
            2,
        ),
        Call::Redeem(account, lusd, bound, hint) => with_hint(
            b"redeem",
            [account.into(), lusd, bound, 0, 0, 0],
            3,
            hint,
        ),
        Call::Claim(account) => words(b"claim", [account.into(), 0, 0, 0, 0, 0], 1),
        Call::Rotate => words(b"rotate", [0, 0, 0, 0, 0, 0], 0),
    }
}

/// The name of a query, and the number behind it.
fn named_query(query: &Query) -> Named
    ensures words { map piece_of (words_in result) ≡ map piece_of (query_words query.now) }
    ensures range { AllByRecursion IsInRange (query_words query.now) }
    ensures few { result.count ≤ 6 }
    ensures short { length result.name.now + result.count * 21 ≤ 132 }
{
    match *query {
        Query::Wallet(account) => words(b"wallet", [account.into(), 0, 0, 0, 0, 0], 1),
        Query::Trove(account) => words(b"trove", [account.into(), 0, 0, 0, 0, 0], 1),
        Query::Deposit(account) => words(b"deposit", [account.into(), 0, 0, 0, 0, 0], 1),
        Query::Pools => words(b"pools", [0, 0, 0, 0, 0, 0], 0),
        Query::System => words(b"system", [0, 0, 0, 0, 0, 0], 0),
        Query::NextNumber(client) => words(b"next_number", [client.into(), 0, 0, 0, 0, 0], 1),
    }
}

/// A name and what stands behind it: the first `count` of the numbers, and hints where there are
/// any.
#[derive(Drop)]
struct Named {
    name: &'static [u8],
    numbers: [u64; 6],
    count: usize,
    hint: Option<HintWords>,
}

fn words(name: &'static [u8], numbers: [u64; 6], count: usize) -> Named
    ensures { result ≡ record { name = name.entry; numbers = numbers; count = count; hint = None } }
{
    Named {
        name,
        numbers,
        count,
        hint: None,
    }
}

fn with_hint(name: &'static [u8], numbers: [u64; 6], count: usize, hint: HintWords) -> Named
    ensures { result ≡ record {
      name = name.entry;
      numbers = numbers;
      count = count;
      hint = Some hint;
    } }
{
    Named {
        name,
        numbers,
        count,
        hint: Some(hint),
    }
}

// The name and the words after it, each with a space in front of it.
fn put_named(out: &mut Vec<u8>, named: &Named)
    requires few { named.now.count ≤ 6 }
    requires short { length named.now.name.now + named.now.count * 21 ≤ 132 }
    requires room { vec_len out.old + 155 ≤ vec_capacity out.old }
    ensures items { out.new.items ≡ out.old.items ++ written (words_in named.now) }
    ensures len { vec_len out.new ≤ vec_len out.old + 155 }
    ensures capacity { vec_capacity out.old ≤ vec_capacity out.new }
{
    put(out, b" ");
    put(out, named.name);
    put_numbers(out, &named.numbers[..named.count]);
    put_hints(out, named.hint);
}

fn put_hints(out: &mut Vec<u8>, hint: Option<HintWords>)
    requires { vec_len out.old + 22 ≤ vec_capacity out.old }
    ensures items { out.new.items ≡ out.old.items ++ written (hint_words hint) }
    ensures len { vec_len out.new ≤ vec_len out.old + 22 }
    ensures capacity { vec_capacity out.old ≤ vec_capacity out.new }
{
    if let Some(hint) = hint {
        put_hint(out, hint.prev);
        put_hint(out, hint.next);
    }
}

fn put_hint(out: &mut Vec<u8>, account: Option<u32>)
    requires { vec_len out.old + 11 ≤ vec_capacity out.old }
    ensures items { out.new.items ≡ out.old.items ++ written (hint account ∷ []) }
    ensures len { vec_len out.new ≤ vec_len out.old + 11 }
    ensures capacity { vec_capacity out.old ≤ vec_capacity out.new }
{
    match account {
        None => put(out, b" -"),
        Some(account) => put_number(out, account),
    }
}
