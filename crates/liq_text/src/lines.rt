//! Lines, read: a request, a query alone, or a request with its session in front.

ghost use Rattle.std.specs.Prelude.{◌≡◌, ◌≢◌, ◌++◌, ℕ, List, Ok, Some, IfOk, IfSome, OnErr, codes};
ghost use Rattle.liq_types.specs.declared.requests.Query.{Query};
ghost use Rattle.liq_types.specs.declared.requests.Request.{Request};
ghost use Rattle.liq_types.specs.declared.requests.Request.TheVariants.{Ask};
ghost use Rattle.liq_text.specs.Spelling.{Spells, SpellsInSession};
ghost use Rattle.liq_text.specs.Reading.{pieces_of, call_of, request_of, session_of, session_request_of};
ghost use Rattle.liq_text.specs.Pieces.{pieces_left, unless};

use crate::bad_line::BadLine;
use crate::calls::arguments;
use crate::names::{VERBS, meaning};
use crate::pieces::{Pieces, split_first};
use crate::queries::parse_query;
use crate::values;
use liq_types::{Call, Command, Query, Request};

fn call(words: &mut Pieces<'_>) -> Option<Call>
    ensures { result ≡ unless words.old.has_failed (call_of (pieces_left words.old)) }
{
    let verb = meaning(&VERBS, words.next())?;
    let call = arguments(verb, words);
    words.is_done().then_some(call)
}

/// The request on a line that begins as no query does.
fn parse_command(line: &[u8]) -> Option<Request>
    requires { (rest : List ℕ) → line.now ≢ codes "? " ++ rest }
    ensures { result ≡ request_of (pieces_of line.now) }
{
    let mut words = Pieces::new(line);
    let client = values::account(words.next())?;
    let number = words.number();
    let call = call(&mut words)?;
    Some(Request::Do(Command {
        client,
        number,
        call,
    }))
}

fn request(line: &[u8]) -> Option<Request>
    ensures { result ≡ request_of (pieces_of line.now) }
{
    match line.strip_prefix(b"? ") {
        Some(words) => Some(Request::Ask(parse_query(words)?)),
        None => parse_command(line),
    }
}

/// The query that a line spells, the line end not counted: none where it spells none.
pub fn read_query(line: &[u8]) -> Option<Query>
    ensures found { IfSome result (λ query. Spells line.now (Ask query)) }
    // So at most one query is spelled, and none is passed over.
    ensures only { (query : Query) → Spells line.now (Ask query) → result ≡ Some query }
{
    match line.strip_prefix(b"? ") {
        Some(words) => parse_query(words),
        None => None,
    }
}

/// The request that a line spells, the line end not counted: [`BadLine`] where no request is
/// spelled so, as on every line of more than 200 bytes.
pub fn read_line(line: &[u8]) -> Result<Request, BadLine>
    ensures found { IfOk result (λ request. Spells line.now request) }
    // So at most one request is spelled.
    ensures only { (request : Request) → Spells line.now request → result ≡ Ok request }
    ensures bad { OnErr result ((request : Request) → Spells line.now request → ⊥) }
{
    request(line).ok_or(BadLine)
}

#[tactic(auto, unfolding(crate::specs::Reading::session_of))]
fn session(word: &[u8]) -> Option<u8>
    ensures { result ≡ session_of word.now }
{
    match values::number(word)? {
        session @ 1..=8 => Some(session as u8),
        _ => None,
    }
}

fn session_request_in(line: &[u8]) -> Option<(u8, Request)>
    ensures { result ≡ session_request_of (pieces_of line.now) }
{
    let (word, rest) = split_first(line);
    let session = session(word)?;
    let request = request(rest?)?;
    Some((session, request))
}

/// The session, from 1 to 8, and the request that a line of several sessions spells: the session's
/// digit and a space stand in front of a line as [`read_line`] reads it. No such line has more than
/// 200 bytes either.
pub fn read_session_line(line: &[u8]) -> Result<(u8, Request), BadLine>
    ensures found { IfOk result (λ read. SpellsInSession line.now read.0 read.1) }
    // So at most one session and request are spelled.
    ensures only { (session : ℕ) (request : Request) → SpellsInSession line.now session request
        → result ≡ Ok (session, request) }
    ensures bad { OnErr result ((session : ℕ) (request : Request)
        → SpellsInSession line.now session request → ⊥) }
{
    session_request_in(line).ok_or(BadLine)
}
